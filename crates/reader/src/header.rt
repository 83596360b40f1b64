// The lines of the header that are the same for every amount kind. By a rule of the project each field of a line is taken by
// `let .. else`, which returns its own fault at once, also where `ok_or` and `?` would be shorter.
ghost use Rattle.std.specs.Prelude.{◌≡◌, map};
ghost use Rattle.reader.specs.Lines.{mesh_line, feed_line, named_line, flag_line};

use crate::fields::{expect_fields, read_amount, read_due};
use grid::Size;
use syntax::{Fault, Phase, read_choice, read_up_to};

// The amount kind that a scenario names.
#[derive(Clone, Copy, PartialEq, Eq, Debug)]
pub enum KindName {
    Volume,
    Water,
}

// Reads the first line, `mesh,volume|water,W,H,L`: the amount kind, and the size of the mesh.
pub fn read_mesh(line: &[u8]) -> Result<(KindName, Size), Fault>
    ensures { result ≡ mesh_line line.now }
{
    read_due(Phase::Mesh, line)?;
    expect_fields(line, 5)?;
    let kinds = [("volume", KindName::Volume), ("water", KindName::Water)];
    let Some(kind) = read_choice(line, 1, &kinds) else {
        return Err(Fault::Fields);
    };
    let Some(width) = read_up_to(line, 2, 16) else {
        return Err(Fault::Number);
    };
    let Some(height) = read_up_to(line, 3, 4) else {
        return Err(Fault::Number);
    };
    let Some(levels) = read_up_to(line, 4, 255) else {
        return Err(Fault::Number);
    };
    let size = Size {
        width,
        height,
        levels,
    };
    Ok((kind, size))
}

// Reads `feed,A`.
pub(crate) fn read_feed(line: &[u8]) -> Result<(), Fault>
    ensures { result ≡ feed_line line.now }
{
    expect_fields(line, 2)?;
    let Some(_) = read_amount(line, 1) else {
        return Err(Fault::Number);
    };
    Ok(())
}

// Reads a line that takes one of these names, as `split,first|even` and `cluster,runs|cells` do.
pub(crate) fn read_named<T: Copy>(line: &[u8], names: &[(&str, T)]) -> Result<T, Fault>
    ensures { result ≡ named_line line.now (map (λ name. (name.0.now, name.1)) names.now) }
{
    expect_fields(line, 2)?;
    let Some(name) = read_choice(line, 1, names) else {
        return Err(Fault::Fields);
    };
    Ok(name)
}

// Reads `flag,steep,T` or `flag,from,X`.
pub(crate) fn read_flag(line: &[u8]) -> Result<(), Fault>
    ensures { result ≡ flag_line line.now }
{
    expect_fields(line, 3)?;
    let limits = [("steep", 1_000_000_000), ("from", 255)];
    let Some(most) = read_choice(line, 1, &limits) else {
        return Err(Fault::Fields);
    };
    let Some(_) = read_up_to(line, 2, most) else {
        return Err(Fault::Number);
    };
    Ok(())
}
