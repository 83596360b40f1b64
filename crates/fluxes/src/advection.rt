// Advection, a flux rule.
ghost use Rattle.std.specs.Prelude.{◌≡◌};
ghost use Rattle.interfaces.specs.Refusals.{Made};
ghost use Rattle.fluxes.specs.Advections.{in_range, speed as speed_of, advection, AdvectionExamples};

use crate::speed::Speed;
use amount::{Amount, Volume};
use grid::Side;
use interfaces::{Between, Flux, RuleRefusal};
use model::Direction;

// Volumes move at a constant speed, cx east and cy north.
#[derive(Clone, Copy, PartialEq, Eq, Debug)]
pub struct Advection {
    pub cx: Speed,
    pub cy: Speed,
}

impl Advection {
    // Advection at these speeds, in 256ths. Refused where one is outside -128 to 128.
    pub fn new(cx: i64, cy: i64) -> Result<Advection, RuleRefusal>
        ensures { Made (in_range cx cy) (λ a. (a.cx.parts ≡ cx) × (a.cy.parts ≡ cy)) result }
    {
        Ok(Advection {
            cx: Speed::new(cx)?,
            cy: Speed::new(cy)?,
        })
    }

    // The speed along a direction.
    fn speed(&self, direction: Direction) -> Speed
        ensures { result ≡ speed_of self.now direction }
    {
        match direction {
            Direction::East => self.cx,
            Direction::North => self.cy,
        }
    }
}

impl Flux<Volume> for Advection {
    ghost rule = { advection };

    fn interior(&self, level: usize, direction: Direction, low: Volume, high: Volume) -> Volume {
        self.speed(direction).between(low, high)
    }

    fn boundary(
        &self,
        level: usize,
        side: Side,
        place: usize,
        steps: u32,
        content: Volume,
    ) -> Volume {
        let outer = Volume::zero();
        match side {
            Side::West | Side::East => self.cx.inward_over(side, outer, content),
            Side::South | Side::North => self.cy.inward_over(side, outer, content),
        }
    }
}

// Two fluxes worked out.
pub fn advection_examples()
    ensures { AdvectionExamples }
{}
