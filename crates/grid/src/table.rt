ghost use Rattle.std.specs.Prelude.{◌≡◌, ℕ, ◌<◌, ◌≤◌, length, slice_index_or};
ghost use Rattle.grid.specs.Boxes.{Inside, no_patch};

use crate::patch::Patch;

// The patches of one level, boxes in a grid of width by height cells: the first `count` of 128 are in use.
#[derive(Clone, Copy, PartialEq, Eq, Debug)]
pub struct PatchTable {
    pub width: usize,
    pub height: usize,
    // an array and a count: the memory of a mesh is fixed, and a layout is copied as a plain value
    pub patches: [Patch; 128],
    pub count: usize,
    ghost whole: { length patches ≡ 128 },
    ghost few: { count ≤ 128 },
    ghost inside: { (i : ℕ) → i < count → Inside width height (slice_index_or patches i no_patch) },
}

impl PatchTable {
    ghost use Rattle.grid.specs.Tables.{used};

    // The patches in use.
    pub fn in_use(&self) -> &[Patch]
        ensures { result.now ≡ used self.now }
    {
        &self.patches[..self.count]
    }
}
