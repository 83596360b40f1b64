// A number from -2^28 to 2^28: a part of the water that is seen, or of its fluxes.
ghost use Rattle.std.specs.Prelude.{◌≡◌, ℤ, neg_ℤ};
ghost use Rattle.shallow_water.specs.Ranges.{Small};

use std::marker::Model;
use std::ops::Neg;

// 2^28
pub(crate) const BOUND: i64 = 268_435_456;

#[derive(Clone, Copy, Default, PartialEq, Eq, Debug)]
pub(crate) struct Part {
    number: i64,
}

impl Model for Part {
    ghost Value = { ℤ };

    ghost view = { λ p. p.number };

    ghost invariant = { λ p. Small p.number };

    ghost inverse = { λ z. record { number = z } };
}

impl Part {
    ghost use Rattle.shallow_water.specs.Waves.{bounded as bounded_of};

    // A number brought into -2^28 to 2^28.
    pub(crate) fn bounded(number: i64) -> Part
        ensures { result ≡ bounded_of number }
    {
        Part {
            number: number.clamp(-BOUND, BOUND),
        }
    }

    pub(crate) fn get(self) -> i64
        ensures value { result ≡ self }
        ensures range { Small result }
    {
        self.number
    }
}

impl Neg for Part {
    type Output = Part;

    ghost neg_gives = { λ p r. r ≡ neg_ℤ p };

    fn neg(self) -> Part {
        Part {
            number: -self.number,
        }
    }
}
