ghost use Rattle.std.specs.Prelude.{◌≡◌, length};
ghost use Rattle.grid.specs.Sizes.{sheet_length};
ghost use Rattle.grid.specs.Layouts.{hierarchy_of};
ghost use Rattle.model.specs.Fields.{fields_of};
ghost use Rattle.model.specs.Total.{composite_total};

use crate::check::Marked;
use amount::Amount;
use grid::Mark;

impl Marked<'_> {
    // What all live uncovered cells hold. The length is asked here, as of lent contents it is asked nowhere else.
    pub(crate) fn leaf_total<V: Amount>(self, contents: &[V]) -> V
        requires whole { length contents.now ≡ sheet_length self.layout.now.size }
        ensures { result ≡ composite_total V.Amount.addition (hierarchy_of self.entry.layout.now) self.entry.layout.now.size.levels 0 (fields_of self.entry.layout.now.size V.Amount.addition.zero contents.now) }
    {
        let mut total = V::zero();
        for (content, mark) in contents.iter().zip(self.marks) {
            if Mark::Leaf.is(*mark) {
                total = total.add(*content);
            }
        }
        total
    }
}
