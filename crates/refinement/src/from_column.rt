// From a column on.
ghost use Rattle.std.specs.Prelude.{◌≡◌, ◌/◌, ◌^◌};
ghost use Rattle.refinement.specs.Flags.{from_column};

use amount::Amount;
use grid::Place;
use interfaces::{Flagging, Neighbours};

// The flagging of every cell from a base column on.
#[derive(Clone, Copy, PartialEq, Eq, Debug)]
pub struct FromColumn {
    pub column: usize,
}

// The column of level 0 in which column x of a level lies.
fn base_column(level: usize, x: usize) -> usize
    ensures { result ≡ x / 2 ^ level }
{
    if level < 64 { x >> level } else { 0 }
}

impl<V: Amount> Flagging<V> for FromColumn {
    ghost flags = { λ f. from_column f.column };

    fn flag(&self, level: usize, place: Place, content: V, neighbours: &Neighbours<V>) -> bool {
        base_column(level, place.x) >= self.column
    }
}
