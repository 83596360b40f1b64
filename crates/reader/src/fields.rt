// Parts of a line that several lines share.
ghost use Rattle.std.specs.Prelude.{◌≡◌};
ghost use Rattle.reader.specs.Forms.{amount_field, counted};
ghost use Rattle.reader.specs.Lines.{due_word};

use syntax::{Fault, Phase, Word, due};
use text::{field, field_count, number_field};

// The first word of a line, and which line is due after one that begins with it.
pub(crate) fn read_due(phase: Phase, line: &[u8]) -> Result<(Word, Phase), Fault>
    ensures { result ≡ due_word phase line.now }
{
    // `let .. else` here and for each field below: a rule of the project, as the head of header.rt says
    let Some(first) = field(line, 0) else {
        return Err(Fault::Word);
    };
    let word = Word::try_from(first)?;
    let next = due(phase, word).ok_or(Fault::Order)?;
    Ok((word, next))
}

// Refuses a line that has another number of fields.
pub(crate) fn expect_fields(line: &[u8], count: usize) -> Result<(), Fault>
    ensures { result ≡ counted line.now count }
{
    if field_count(line) != count {
        return Err(Fault::Fields);
    }
    Ok(())
}

// The field of a line that has this number, counted from 0, as an amount: a number within 1,000,000,000 of zero.
pub(crate) fn read_amount(line: &[u8], number: usize) -> Option<i64>
    ensures { result ≡ amount_field line.now number }
{
    number_field(line, number, -1_000_000_000, 1_000_000_000)
}
