// Fields that hold a place, a size or a level.
ghost use Rattle.std.specs.Prelude.{◌≡◌};
ghost use Rattle.syntax.specs.Names.{up_to};

use text::number_field;

// The field of a line that has this number, counted from 0, as a number from 0 to `most`.
pub fn read_up_to(line: &[u8], number: usize, most: u32) -> Option<usize>
    ensures { result ≡ up_to line.now number most }
{
    number_field(line, number, 0, i64::from(most)).map(|n| n as usize)
}
