// Each whole run of wanted cells as a patch.
ghost use Rattle.std.specs.Prelude.{◌≡◌, ◌+◌, ◌^◌, ◌<◌, ◌≤◌, length};
ghost use Rattle.model.specs.Clusterings.{runs as whole_runs};
ghost use Rattle.clustering.specs.Rows.{runs_in, run_before, Wrote};
ghost use Rattle.model.proofs.Clusterings.{clusterings_lawful};

use crate::boxes::Boxes;
use crate::rows::{RowBoxes, cluster_rows, stretch, wanted_row};
use grid::Patch;
use interfaces::{CellMaps, Clustering, TooMany};

// The clustering that gives each whole west-east run of wanted cells a patch, row by row from the south-west.
#[derive(Clone, Copy, PartialEq, Eq, Debug)]
pub struct RowRuns;

// Writes the run that ends before column x, if there is one, after the other boxes. The run is given by its first column.
fn push_run(boxes: &mut Boxes<'_>, first: Option<usize>, x: usize, y: usize) -> Result<(), TooMany>
    requires { (boxes.old.count ≤ length boxes.old.patches.now) × (y + 1 < 2 ^ 64) }
    ensures { Wrote result boxes.old boxes.new (run_before x y first) }
{
    match first {
        Some(x0) => boxes.push(stretch(x0, x, y)),
        None => Ok(()),
    }
}

impl RowBoxes for RowRuns {
    ghost boxes_in = { runs_in };

    fn push_row(
        &self,
        cells: &CellMaps<'_>,
        y: usize,
        boxes: &mut Boxes<'_>,
    ) -> Result<(), TooMany> {
        // the first column of the run under way
        let mut first = None;
        for (x, &wanted) in wanted_row(cells, y).iter().enumerate() {
            if wanted != 0 {
                first = first.or(Some(x));
            } else {
                push_run(boxes, first, x, y)?;
                first = None;
            }
        }
        push_run(boxes, first, cells.width, y)
    }
}

// One line for each, and no plainer otherwise: an impl of another crate's trait for every `RowBoxes` is not allowed.
impl Clustering for RowRuns {
    ghost boxes = { λ _. whole_runs };

    ghost lawful = { λ s. clusterings_lawful.1 };

    fn cluster(&self, cells: &CellMaps<'_>, patches: &mut [Patch]) -> Result<usize, TooMany> {
        cluster_rows(self, cells, patches)
    }
}
