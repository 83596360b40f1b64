// The water of a cell along a direction.
ghost use Rattle.std.specs.Prelude.{◌≡◌, ℤ, pos, ◌*ℤ◌, ◌≤ℤ◌, ◌≢◌, ◌≤◌, unsigned_abs, MatchOption, IfSome};
ghost use Rattle.shallow_water.specs.declared.along.Along.{Along};

use crate::part::Part;
use crate::whole::floor_div;
use amount::Water;
use model::Direction;
use std::marker::Model;

// Its volume, which is not below zero, its momentum along the direction and the other one.
#[derive(Clone, Copy, PartialEq, Eq, Debug)]
pub(crate) struct Seen {
    pub v: Part,
    pub n: Part,
    pub t: Part,
}

impl Model for Seen {
    ghost Value = { Along ℤ };

    ghost view = { λ s. record { v = s.v; n = s.n; t = s.t } };

    ghost invariant = { λ s. pos 0 ≤ℤ s.v };

    ghost inverse = { λ u. record { v = u.v; n = u.n; t = u.t } };
}

impl Seen {
    ghost use Rattle.interfaces.specs.Whole.{floor_div};
    ghost use Rattle.shallow_water.specs.Waves.{seen as seen_of, mirror as mirror_of};

    // The water of a cell, each part brought into its range.
    pub(crate) fn of(direction: Direction, water: Water) -> Seen
        ensures { result ≡ seen_of direction water }
    {
        let (along, other) = match direction {
            Direction::East => (water.p, water.q),
            Direction::North => (water.q, water.p),
        };
        Seen {
            v: Part::bounded(i64::from(water.v.max(0))),
            n: Part::bounded(i64::from(along)),
            t: Part::bounded(i64::from(other)),
        }
    }

    // The same water moving the other way along the direction.
    pub(crate) fn mirror(self) -> Seen
        ensures { result ≡ mirror_of self }
    {
        Seen {
            v: self.v,
            n: -self.n,
            t: self.t,
        }
    }

    // A momentum carried by the motion along the direction, rounded down. None where there is no volume.
    pub(crate) fn carried(self, momentum: Part) -> Option<i64>
        ensures value { MatchOption result (self.v ≡ pos 0) (λ r. (self.v ≢ pos 0) × (r ≡ floor_div (self.n *ℤ momentum) self.v)) }
        ensures range { IfSome result (λ r. unsigned_abs r ≤ 72057594037927936) }
    {
        let product = self.n.get() * momentum.get();
        let volume = self.v.get();
        if volume == 0 {
            return None;
        }
        Some(floor_div(product, volume))
    }
}
