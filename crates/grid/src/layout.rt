ghost use Rattle.std.specs.Prelude.{◌≡◌, ℕ, ◌*◌, ◌<◌, ◌≤◌};
ghost use Rattle.grid.specs.Boxes.{Apart, Nested};
ghost use Rattle.grid.specs.Tables.{used};

use crate::patch::Patch;
use crate::size::Size;
use crate::table::PatchTable;

// The size of a mesh and which of its cells are refined.
#[derive(Clone, Copy, PartialEq, Eq, Debug)]
pub struct Layout {
    pub size: Size,
    // Two tables with names, and no array of them: each has its own grid, which its invariants name.
    // the patches of level 1, in cells of level 0
    pub first: PatchTable,
    // the patches of level 2, in cells of level 1
    pub second: PatchTable,
    ghost wide: { (1 ≤ size.width) × (size.width ≤ 64) },
    ghost high: { (1 ≤ size.height) × (size.height ≤ 64) },
    ghost small: { size.width * size.height ≤ 1024 },
    ghost deep: { (1 ≤ size.levels) × (size.levels ≤ 3) },
    ghost firstgrid: { (first.width ≡ size.width) × (first.height ≡ size.height) },
    ghost secondgrid: { (second.width ≡ 2 * size.width) × (second.height ≡ 2 * size.height) },
    ghost nofirst: { size.levels < 2 → first.count ≡ 0 },
    ghost nosecond: { size.levels < 3 → second.count ≡ 0 },
    ghost firstapart: { Apart (used first) },
    ghost secondapart: { Apart (used second) },
    ghost nested: { Nested size.width size.height (used first) (used second) },
}

impl Layout {
    ghost use Rattle.grid.specs.Layouts.{patches_of};

    // The patches of a level, in cells of the level below it.
    pub fn patches(&self, level: usize) -> &[Patch]
        ensures { result.now ≡ patches_of self.now level }
    {
        match level {
            1 => self.first.in_use(),
            2 => self.second.in_use(),
            _ => &[],
        }
    }
}
