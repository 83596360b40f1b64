// Shallow water, a flux rule.
ghost use Rattle.std.specs.Prelude.{◌≡◌, ◌≤◌, pos};

use crate::face::Face;
use crate::seen::Seen;
use amount::Water;
use grid::Side;
use interfaces::{Between, Flux, RuleRefusal};
use model::Direction;

// Its pressure is divided by 2^shift; the shift is 8 to 24.
#[derive(Clone, Copy, PartialEq, Eq, Debug)]
pub struct ShallowWater {
    pub shift: u32,
    ghost range: { (8 ≤ shift) × (shift ≤ 24) },
}

impl ShallowWater {
    ghost use Rattle.interfaces.specs.Refusals.{Made};
    ghost use Rattle.shallow_water.specs.Waves.{in_range};

    // Shallow water with this shift. Refused where it is outside 8 to 24.
    pub fn new(shift: i64) -> Result<ShallowWater, RuleRefusal>
        ensures { Made (in_range shift) (λ w. pos w.shift ≡ shift) result }
    {
        if !(8..=24).contains(&shift) {
            return Err(RuleRefusal::OutOfRange);
        }
        Ok(ShallowWater {
            shift: shift as u32,
        })
    }
}

impl Flux<Water> for ShallowWater {
    ghost use Rattle.shallow_water.specs.Waves.{shallow_water};

    ghost rule = { λ w. shallow_water w.shift };

    fn interior(&self, level: usize, direction: Direction, low: Water, high: Water) -> Water {
        let face = Face {
            rule: *self,
            level,
            direction,
        };
        face.between(Seen::of(direction, low), Seen::of(direction, high))
    }

    fn boundary(
        &self,
        level: usize,
        side: Side,
        place: usize,
        steps: u32,
        content: Water,
    ) -> Water {
        let direction = Direction::from(side);
        let face = Face {
            rule: *self,
            level,
            direction,
        };
        let inner = Seen::of(direction, content);
        let outer = inner.mirror();
        face.inward_over(side, outer, inner)
    }
}
