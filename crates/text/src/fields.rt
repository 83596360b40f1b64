// A text cut at its separators.
ghost use Rattle.std.specs.Prelude.{◌≡◌, length};
ghost use Rattle.std.specs.Option.{option_map};
ghost use Rattle.std.specs.List.{slice_get};
ghost use Rattle.text.specs.Text.{cut_at, fields};

// What stands before the first separator, and what stands after it.
pub fn cut(text: &[u8], separator: u8) -> Option<(&[u8], &[u8])>
    ensures { option_map (λ parts. (parts.0.now, parts.1.now)) result ≡ cut_at separator text.now }
{
    let i = text.iter().position(|byte| *byte == separator)?;
    Some((&text[..i], &text[i + 1..]))
}

// The field of a line that has this number, counted from 0. A line and a number stay two parameters, here and in the crates above: one
// line is read at several numbers, so that a value of both would be no plainer.
pub fn field(line: &[u8], number: usize) -> Option<&[u8]>
    ensures { option_map (λ x. x.now) result ≡ slice_get (fields line.now) number }
{
    line.split(|byte| *byte == b',').nth(number)
}

// How many fields a line has. Counted in a loop, since `split`, and `filter` with `count`, take more than twice the instructions where
// there are many commas.
pub fn field_count(line: &[u8]) -> usize
    ensures { result ≡ length (fields line.now) }
{
    let mut count = 1;
    for byte in line {
        if *byte == b',' {
            count += 1;
        }
    }
    count
}
