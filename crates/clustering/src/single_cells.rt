// Each wanted cell as a patch.
ghost use Rattle.std.specs.Prelude.{◌<◌, ◌≤◌, length};
ghost use Rattle.model.specs.Clusterings.{cells as single_cells};
ghost use Rattle.clustering.specs.Rows.{cells_in};
ghost use Rattle.model.proofs.Clusterings.{clusterings_lawful};

use crate::boxes::Boxes;
use crate::rows::{RowBoxes, cluster_rows, stretch, wanted_row};
use grid::Patch;
use interfaces::{CellMaps, Clustering, TooMany};

// The clustering that gives each wanted cell a patch of its own, row by row from the south-west.
#[derive(Clone, Copy, PartialEq, Eq, Debug)]
pub struct SingleCells;

impl RowBoxes for SingleCells {
    ghost boxes_in = { cells_in };

    fn push_row(
        &self,
        cells: &CellMaps<'_>,
        y: usize,
        boxes: &mut Boxes<'_>,
    ) -> Result<(), TooMany> {
        for (x, &wanted) in wanted_row(cells, y).iter().enumerate() {
            if wanted != 0 {
                boxes.push(stretch(x, x + 1, y))?;
            }
        }
        Ok(())
    }
}

// One line for each, and no plainer otherwise: an impl of another crate's trait for every `RowBoxes` is not allowed.
impl Clustering for SingleCells {
    ghost boxes = { λ _. single_cells };

    ghost lawful = { λ s. clusterings_lawful.0 };

    fn cluster(&self, cells: &CellMaps<'_>, patches: &mut [Patch]) -> Result<usize, TooMany> {
        cluster_rows(self, cells, patches)
    }
}
