// The clustering of wanted cells.
ghost use Rattle.std.specs.Prelude.{◌≡◌};
ghost use Rattle.model.specs.Wanted.{Clustering as ClusteringRule, Clusters};
ghost use Rattle.interfaces.specs.Answers.{Clustered, asked};

use crate::cells::CellMaps;
use grid::Patch;

// The list of boxes is longer than the patches that were lent for it.
#[derive(Clone, Copy, PartialEq, Eq, Debug)]
pub struct TooMany;

// Which patches cover the wanted cells.
pub trait Clustering {
    ghost boxes: { Self → ClusteringRule };

    // Writes the boxes into the first of the patches, in their order, and answers how many there are.
    // The patches are lent: the library allocates nothing.
    fn cluster(&self, cells: &CellMaps<'_>, patches: &mut [Patch]) -> Result<usize, TooMany>
        ensures { Clustered result patches.old patches.new (asked (boxes self.now) cells.now) };

    // Where every wanted cell is properly nested, the boxes have cells, lie inside the grid, share no cell, and hold only properly
    // nested cells and every wanted one.
    ghost lawful: { (s : Self) → Clusters (boxes s) };
}
