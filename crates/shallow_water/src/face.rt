// What crosses the faces of a level, in a direction, by the rule.
ghost use Rattle.std.specs.Prelude.{◌≡◌, pos, unwrap_or, MatchOption};

use crate::along::Along;
use crate::crossings::{crossings, water_along};
use crate::part::{BOUND, Part};
use crate::seen::Seen;
use crate::shallow_water::ShallowWater;
use amount::Water;
use interfaces::Between;
use model::Direction;

#[derive(Clone, Copy, PartialEq, Eq, Debug)]
pub(crate) struct Face {
    pub rule: ShallowWater,
    pub level: usize,
    pub direction: Direction,
}

impl Face {
    ghost use Rattle.shallow_water.specs.Waves.{bounded as bounded_of, pressure as pressure_of, momentum_flux as momentum_flux_of, fluxes as fluxes_of, no_flux};

    // The pressure of the depth, v·v·4^l / 2^shift rounded down, brought into its range.
    fn pressure(self, water: Seen) -> Part
        ensures { result ≡ bounded_of (pressure_of self.rule.shift self.level water) }
    {
        let volume = water.v.get().unsigned_abs();
        // From level 26 on, the pressure of any volume is 2^28 or more.
        let scaled = u128::from(volume * volume) << (2 * self.level.min(26));
        Part::bounded((scaled >> self.rule.shift).min(BOUND as u128) as i64)
    }

    // The flux of the momentum along the direction. None where there is no volume.
    fn momentum_flux(self, water: Seen) -> Option<Part>
        ensures { MatchOption result (water.v ≡ pos 0) (λ r. r ≡ bounded_of (momentum_flux_of self.rule.shift self.level water)) }
    {
        let carried = water.carried(water.n)?;
        Some(Part::bounded(carried + self.pressure(water).get()))
    }

    // The fluxes of a cell that has a volume.
    fn wet_fluxes(self, water: Seen) -> Option<Along<Part>>
        ensures { unwrap_or result no_flux ≡ fluxes_of self.rule.shift self.level water }
    {
        Some(Along {
            v: water.n,
            n: self.momentum_flux(water)?,
            t: Part::bounded(water.carried(water.t)?),
        })
    }

    // The fluxes of a cell: none if it has no volume.
    fn fluxes(self, water: Seen) -> Along<Part>
        ensures { result ≡ fluxes_of self.rule.shift self.level water }
    {
        self.wet_fluxes(water).unwrap_or_default()
    }
}

// What moves from a low cell to a high one, by both along the direction between them.
impl Between<Seen, Water> for Face {
    ghost use Rattle.shallow_water.specs.Waves.{between as between_of};

    ghost moved = { λ f low high. between_of f.rule.shift f.level f.direction low high };

    fn between(&self, low: Seen, high: Seen) -> Water {
        let flux_low = self.fluxes(low);
        let flux_high = self.fluxes(high);
        water_along(self.direction, crossings(flux_low, flux_high, low, high))
    }
}
