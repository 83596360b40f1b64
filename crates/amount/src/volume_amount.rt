// Volumes are amounts.
ghost use Rattle.std.specs.Prelude.{◌≡◌, pos, negsuc};
ghost use Rattle.amount.specs.Volumes.{volume_of, plus, minus, volumes};
ghost use Rattle.amount.specs.VolumesLemmas.{volume_sums, volume_inverse};

use crate::amount::Amount;
use crate::volume::Volume;

impl Amount for Volume {
    ghost addition = { volumes };

    fn zero() -> Volume {
        Volume { units: 0 }
    }

    fn add(self, other: Volume) -> Volume {
        Volume {
            units: self.units.wrapping_add(other.units),
        }
    }

    ghost negation = { minus };

    ghost sums = { volume_sums };

    ghost inverse = { volume_inverse };

    fn neg(self) -> Volume {
        Volume {
            units: self.units.wrapping_neg(),
        }
    }
}

// The greatest volume, 2^63 - 1, plus one unit. It is the least, -2^63.
pub fn greatest_plus_one() -> Volume
    ensures sum { result ≡ plus (volume_of (pos 9223372036854775807)) (volume_of (pos 1)) }
    ensures least { result ≡ volume_of (negsuc 9223372036854775807) }
{
    let greatest = Volume { units: i64::MAX };
    greatest.add(Volume { units: 1 })
}
