// Fields that hold one of a few names.
ghost use Rattle.std.specs.Prelude.{◌≡◌, map};
ghost use Rattle.syntax.specs.Names.{named, choice_of};

use text::field;

// Whether the field of a line that has this number, counted from 0, is this name, byte for byte.
fn field_is(line: &[u8], number: usize, name: &str) -> bool
    ensures { result ≡ named line.now number name.now }
{
    field(line, number).is_some_and(|text| text == name.as_bytes())
}

// What the name in the field of a line stands for, if it is one of these names.
pub fn read_choice<T: Copy>(line: &[u8], number: usize, names: &[(&str, T)]) -> Option<T>
    ensures { result ≡ choice_of line.now number (map (λ name. (name.0.now, name.1)) names.now) }
{
    names
        .iter()
        .find(|(name, _)| field_is(line, number, name))
        .map(|(_, meaning)| *meaning)
}
