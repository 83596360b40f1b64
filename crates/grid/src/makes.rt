ghost use Rattle.std.specs.Prelude.{◌≡◌, ◌*◌, true, false, [], replicate, MatchOption};
ghost use Rattle.grid.specs.Boxes.{no_patch};
ghost use Rattle.grid.specs.Sizes.{in_range};
ghost use Rattle.grid.specs.Tables.{used};

use crate::layout::Layout;
use crate::patch::Patch;
use crate::size::Size;
use crate::table::PatchTable;

impl PatchTable {
    // A table with no patch in use.
    fn empty(width: usize, height: usize) -> PatchTable
        ensures { (result.width ≡ width) × (result.height ≡ height) × (result.count ≡ 0) × (result.patches ≡ replicate 128 no_patch) }
    {
        PatchTable {
            width,
            height,
            patches: [Patch::default(); 128],
            count: 0,
        }
    }
}

impl Layout {
    // The layout of this size without patches: all of level 0 is live, and nothing else. None where the size is out of range.
    pub fn flat(size: Size) -> Option<Layout>
        ensures { MatchOption result (in_range size ≡ false) (λ o. (in_range size ≡ true) × (o.size ≡ size) × (used o.first ≡ []) × (used o.second ≡ [])) }
    {
        let Size {
            width,
            height,
            levels,
        } = size;
        let in_range = (1..=64).contains(&width)
            && (1..=64).contains(&height)
            && (1..=3).contains(&levels)
            && width * height <= 1024;
        if !in_range {
            return None;
        }
        let first = PatchTable::empty(width, height);
        let second = PatchTable::empty(2 * width, 2 * height);
        Some(Layout {
            size,
            first,
            second,
        })
    }
}
