// Waters are amounts, part by part.
ghost use Rattle.amount.specs.Waters.{minus, waters};
ghost use Rattle.amount.specs.WatersLemmas.{water_sums, water_inverse};

use crate::amount::Amount;
use crate::water::Water;

impl Amount for Water {
    ghost addition = { waters };

    fn zero() -> Water {
        Water { v: 0, p: 0, q: 0 }
    }

    fn add(self, other: Water) -> Water {
        Water {
            v: self.v.wrapping_add(other.v),
            p: self.p.wrapping_add(other.p),
            q: self.q.wrapping_add(other.q),
        }
    }

    ghost negation = { minus };

    ghost sums = { water_sums };

    ghost inverse = { water_inverse };

    fn neg(self) -> Water {
        Water {
            v: self.v.wrapping_neg(),
            p: self.p.wrapping_neg(),
            q: self.q.wrapping_neg(),
        }
    }
}
