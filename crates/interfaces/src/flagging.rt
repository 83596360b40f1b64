// The flagging of cells.
ghost use Rattle.std.specs.Prelude.{◌≡◌};
ghost use Rattle.model.specs.Wanted.{Flagging as FlaggingRule};
ghost use Rattle.interfaces.specs.Answers.{around};

use crate::neighbours::Neighbours;
use grid::Place;

// Which cells are to be refined.
pub trait Flagging<V> {
    ghost flags: { Self → FlaggingRule V };

    // Whether the cell at a place of a level is flagged, by its content and its neighbours'.
    fn flag(&self, level: usize, place: Place, content: V, neighbours: &Neighbours<V>) -> bool
        ensures { result ≡ flags self.now level place.x place.y content (around neighbours.now) };
}
