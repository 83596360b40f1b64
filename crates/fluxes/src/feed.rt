// A feed is a flux rule over any other.
ghost use Rattle.fluxes.specs.Feeds.{feed};

use amount::Amount;
use grid::Side;
use interfaces::Flux;
use model::Direction;

// The rule below, with one of three amounts, by level, added to what it lets in at the west side. Levels past the third get nothing.
#[derive(PartialEq, Eq, Debug, Drop)]
pub struct Feed<R, V> {
    pub below: R,
    pub amounts: [V; 3],
}

impl<V: Amount, R: Flux<V>> Flux<V> for Feed<R, V> {
    ghost rule = { λ f. feed V.Amount.addition f.amounts (R.Flux.rule f.below) };

    fn interior(&self, level: usize, direction: Direction, low: V, high: V) -> V {
        self.below.interior(level, direction, low, high)
    }

    fn boundary(&self, level: usize, side: Side, place: usize, steps: u32, content: V) -> V {
        let inward = self.below.boundary(level, side, place, steps, content);
        match (side, self.amounts.get(level)) {
            (Side::West, Some(amount)) => inward.add(*amount),
            _ => inward,
        }
    }
}
