// Memory for the sheets of a mesh.
ghost use Rattle.std.specs.Prelude.{◌≡◌, replicate, IfOk, if◌then◌else◌};
ghost use Rattle.grid.specs.Sizes.{in_range, sheet_length};

use grid::{Layout, Size};
use std::alloc::{AllocError, Global};

// A sheet with this value in each entry.
#[tactic(auto, using(std::proofs::lemmas::List::replicate_more))]
pub(crate) fn new_sheet<T: Copy>(
    heap: Global,
    value: T,
    length: usize,
) -> Result<Vec<T>, AllocError>
    ensures { IfOk result (λ v. v.items ≡ replicate length value) }
{
    let mut sheet = Vec::new(heap);
    // pushed, since `vec!` clones, and nothing says that the clone of a `Copy` value is that value
    for _ in 0..length {
        sheet.push(value)?;
    }
    Ok(sheet)
}

// How many entries the sheets of a mesh have; none where its size is out of range.
pub(crate) fn length_of(size: Size) -> usize
    ensures { result ≡ (if in_range size then sheet_length size else 0) }
{
    // a match, since a closure is passed a copy of the layout
    match Layout::flat(size) {
        Some(layout) => layout.sheet_length(),
        None => 0,
    }
}
