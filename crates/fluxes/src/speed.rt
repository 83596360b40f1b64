// What moves at a speed.
ghost use Rattle.std.specs.Prelude.{◌≡◌, ◌≤◌, pos, ◌*ℤ◌, unsigned_abs};

use amount::Volume;
use interfaces::{Between, RuleRefusal};

// A speed in 256ths of a cell a step, from -128 to 128.
#[derive(Clone, Copy, PartialEq, Eq, Debug)]
pub struct Speed {
    pub parts: i64,
    ghost range: { unsigned_abs parts ≤ 128 },
}

impl Speed {
    ghost use Rattle.amount.specs.Volumes.{volume_of};
    ghost use Rattle.interfaces.specs.Refusals.{Made};
    ghost use Rattle.interfaces.specs.Whole.{floor_div};
    ghost use Rattle.fluxes.specs.Advections.{is_speed};

    // A speed of so many 256ths. Refused where they are outside -128 to 128.
    pub fn new(parts: i64) -> Result<Speed, RuleRefusal>
        ensures { Made (is_speed parts) (λ s. s.parts ≡ parts) result }
    {
        if !(-128..=128).contains(&parts) {
            return Err(RuleRefusal::OutOfRange);
        }
        Ok(Speed { parts })
    }

    // As many 256ths of some units as the speed says, rounded down.
    fn part_of(self, units: i64) -> Volume
        ensures { result ≡ volume_of (floor_div (self.parts *ℤ units) (pos 256)) }
    {
        let product = i128::from(self.parts) * i128::from(units);
        Volume {
            units: product.div_euclid(256) as i64,
        }
    }
}

// At a speed, its part of what the upwind cell holds moves.
impl Between<Volume, Volume> for Speed {
    ghost use Rattle.fluxes.specs.Advections.{moved};

    ghost moved = { λ s. moved s.parts };

    fn between(&self, low: Volume, high: Volume) -> Volume {
        let donor = if self.parts >= 0 { low } else { high };
        self.part_of(donor.units)
    }
}
