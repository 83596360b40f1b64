// The flux rule.
ghost use Rattle.std.specs.Prelude.{◌≡◌};
ghost use Rattle.model.specs.Interfaces.{Flux as FluxRule};

use amount::Amount;
use grid::Side;
use model::Direction;

// How much moves through a face.
pub trait Flux<V: Amount> {
    ghost rule: { Self → FluxRule V };

    // The amount that moves from the low (west or south) of two cells of a level to the high one, by their contents.
    fn interior(&self, level: usize, direction: Direction, low: V, high: V) -> V
        ensures { result ≡ (rule self.now).interior level direction low high };

    // The amount that moves inward over a side of the grid into a cell: by the cell's place along the side, the accepted steps and
    // its content.
    fn boundary(&self, level: usize, side: Side, place: usize, steps: u32, content: V) -> V
        ensures { result ≡ (rule self.now).boundary level side place steps content };
}
