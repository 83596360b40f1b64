// Where volumes differ.
ghost use Rattle.std.specs.Prelude.{◌≡◌};
ghost use Rattle.refinement.specs.Flags.{steep_between, steep as steep_rule};

use crate::has_volume::HasVolume;
use grid::Place;
use interfaces::{Flagging, Neighbours};

// The flagging of the cells whose volume differs from some neighbour's by more than a threshold.
#[derive(Clone, Copy, PartialEq, Eq, Debug)]
pub struct Steep {
    pub threshold: u64,
}

impl Steep {
    // Whether two volumes differ by more than the threshold.
    fn differ<V: HasVolume>(&self, a: &V, b: &V) -> bool
        ensures { result ≡ steep_between self.now.threshold (V.HasVolume.volume a.now) (V.HasVolume.volume b.now) }
    {
        a.volume().abs_diff(b.volume()) > self.threshold
    }
}

impl<V: HasVolume> Flagging<V> for Steep {
    ghost flags = { λ s. steep_rule V.HasVolume.volume s.threshold };

    // Neighbour by neighbour, up to the first that differs.
    fn flag(&self, level: usize, place: Place, content: V, neighbours: &Neighbours<V>) -> bool {
        self.differ(&content, &neighbours.west)
            || self.differ(&content, &neighbours.east)
            || self.differ(&content, &neighbours.south)
            || self.differ(&content, &neighbours.north)
    }
}
