ghost use Rattle.std.specs.Prelude.{◌≡◌, ℕ, ◌*◌, ◌/◌, ◌<◌, ◌≤◌, length, if◌then◌else◌, slice_index, All};
ghost use Rattle.grid.specs.Boxes.{held};
ghost use Rattle.grid.specs.Sizes.{level_width, level_height};
ghost use Rattle.grid.specs.Hierarchies.{mark as mark_of};
ghost use Rattle.grid.specs.Layouts.{hierarchy_of};
ghost use Rattle.grid.specs.Marks.{byte_of};

use crate::level::Level;
use crate::mark::Mark;
use crate::patch::Patch;

// Writes a mark wherever a patch crosses row y of the patches' grid. The row has `scale` places for each cell of that grid. What is
// asked here, and of y below and in marks.rt, is asked in one or two functions: a type for it would be no plainer.
fn paint(patches: &[Patch], scale: usize, y: usize, mark: Mark, row: &mut [u8])
    requires scale { (1 ≤ scale) × (scale ≤ 2) }
    requires inside { All (λ p. (p.x0 ≤ p.x1) × (p.x1 * scale ≤ length row.old)) patches.now }
    ensures { (k : ℕ) → slice_index row.new k ≡ (if held patches.now (k / scale) y then byte_of mark else slice_index row.old k) }
{
    for patch in patches {
        if (patch.y0..patch.y1).contains(&y) {
            row[patch.x0 * scale..patch.x1 * scale].fill(u8::from(mark));
        }
    }
}

impl Level<'_> {
    // Paints the marks of row y into the front of a row that is wide enough for every level, as no memory is had for one of its width.
    // The row is lent, as one that is answered is copied.
    pub(crate) fn paint_row(self, y: usize, row: &mut [u8; 256])
        requires { y < level_height self.layout.now.size self.number }
        ensures { (x : ℕ) → x < level_width self.entry.layout.now.size self.entry.number → slice_index row.new x ≡ mark_of (hierarchy_of self.entry.layout.now) self.entry.number x y }
    {
        let bare = if self.number == 0 {
            Mark::Leaf
        } else {
            Mark::Dead
        };
        let own = self.layout.patches(self.number);
        let next = self.layout.patches(self.number + 1);
        *row = [u8::from(bare); 256];
        paint(own, 2, y / 2, Mark::Leaf, row);
        paint(next, 1, y, Mark::Covered, row);
    }
}
