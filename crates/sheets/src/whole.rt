ghost use Rattle.std.specs.Prelude.{◌≡◌, if◌then◌else◌};
ghost use Rattle.model.specs.Refusals.{all_long};
ghost use Rattle.sheets.specs.Lists.{lent};

use crate::lent::Sheets;
use crate::refusal::Refusal;

impl<V> Sheets<'_, V> {
    // Whether each of the five sheets has this length.
    pub fn are_long(&self, length: usize) -> bool
        ensures { result ≡ all_long length (lent self.now) }
    {
        self.contents.len() == length
            && self.before.len() == length
            && self.corrections.len() == length
            && self.marks.len() == length
            && self.wanted.len() == length
    }

    // Refuses sheets of which one has another length.
    pub fn check_length(&self, length: usize) -> Result<(), Refusal>
        ensures { result ≡ (if all_long length (lent self.now) then Ok tt else Err Refusal.SheetLength) }
    {
        if self.are_long(length) {
            Ok(())
        } else {
            Err(Refusal::SheetLength)
        }
    }
}
