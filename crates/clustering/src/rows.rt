// What both clusterings do, row by row from the south-west.
ghost use Rattle.std.specs.Prelude.{◌≡◌, ℕ, ◌+◌, ◌^◌, ◌<◌, ◌≤◌, List, length, not, ◌==◌, slice_index};
ghost use Rattle.grid.specs.declared.patch.Patch.{Patch};
ghost use Rattle.model.specs.Clusterings.{stretch as columns_of, by_rows};
ghost use Rattle.interfaces.specs.declared.cells.CellMaps.{CellMaps};
ghost use Rattle.interfaces.specs.Answers.{Clustered};
ghost use Rattle.clustering.specs.Rows.{wanted_in, Wrote};

use crate::boxes::Boxes;
use grid::Patch;
use interfaces::{CellMaps, TooMany};

// A clustering that makes boxes of each row by itself. That the row is there is asked in two functions, that y + 1 is a number in two:
// a row as a type would be no plainer.
pub(crate) trait RowBoxes {
    ghost boxes_in: { CellMaps → ℕ → List Patch };

    // Writes the boxes of a row after the others.
    fn push_row(&self, cells: &CellMaps<'_>, y: usize, boxes: &mut Boxes<'_>) -> Result<(), TooMany>
        requires { (y < cells.now.height) × (boxes.old.count ≤ length boxes.old.patches.now) }
        ensures { Wrote result boxes.old boxes.new (boxes_in cells.now y) };
}

// Writes the boxes of all rows into the first of the patches, and answers how many there are.
pub(crate) fn cluster_rows<R: RowBoxes>(
    rows: &R,
    cells: &CellMaps<'_>,
    patches: &mut [Patch],
) -> Result<usize, TooMany>
    ensures { Clustered result patches.old patches.new (by_rows (R.boxes_in cells.now) cells.now.height 0) }
{
    let mut boxes = Boxes { patches, count: 0 };
    // by rows: there is no list of them, so the range is no index
    for y in 0..cells.height {
        rows.push_row(cells, y, &mut boxes)?;
    }
    Ok(boxes.count)
}

// The bytes of a row: the cells whose byte is not 0 are wanted.
pub(crate) fn wanted_row<'a>(cells: &CellMaps<'a>, y: usize) -> &'a [u8]
    requires { y < cells.now.height }
    ensures long { length result.now ≡ cells.now.width }
    ensures wanted { (x : ℕ) → x < cells.now.width → not (slice_index result.now x == 0) ≡ wanted_in cells.now y x }
{
    let from = y * cells.width;
    &cells.wanted[from..from + cells.width]
}

// The columns x0 up to x1 of a row as a patch.
pub(crate) fn stretch(x0: usize, x1: usize, y: usize) -> Patch
    requires { y + 1 < 2 ^ 64 }
    ensures { result ≡ columns_of x0 x1 y }
{
    Patch {
        x0,
        y0: y,
        x1,
        y1: y + 1,
    }
}
