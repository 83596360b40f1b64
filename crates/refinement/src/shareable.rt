// Amounts that can be shared out.
ghost use Rattle.std.specs.Prelude.{◌≡◌, ℕ};
ghost use Rattle.std.specs.Int.{w64, w32};
ghost use Rattle.amount.specs.VolumesLemmas.{volume_eq};
ghost use Rattle.amount.specs.WatersLemmas.{water_eq};
ghost use Rattle.model.specs.Interfaces.{Splits};
ghost use Rattle.refinement.specs.Prolongation.{spare, share, volume_share, water_share, shared};
ghost use Rattle.refinement.specs.Shares.{shares_wrap};

use amount::{Amount, Volume, Water};

// An amount whose units can be shared out among four children.
pub trait Shareable: Amount {
    ghost child_share: { ℕ → Self → Self };

    // The share of child k, counted from 0.
    fn child_share(self, k: u8) -> Self
        ensures { result ≡ child_share k self };

    // The four shares add up to the whole.
    ghost whole: { Splits Self.addition (shared child_share) };
}

// How many units are over once each child has a quarter.
fn spare_of(units: i64) -> i64
    ensures { result ≡ spare units }
{
    units.rem_euclid(4)
}

// The share of child k, counted from 0, of this many units.
fn share_of(k: u8, units: i64) -> i64
    ensures { result ≡ share k units }
{
    let quarter = units.div_euclid(4);
    if i64::from(k) < spare_of(units) {
        quarter + 1
    } else {
        quarter
    }
}

// The same of one part of a water, which is narrower: a cast around it.
fn part_share(k: u8, part: i32) -> i32
    ensures { result ≡ share k part }
{
    share_of(k, i64::from(part)) as i32
}

impl Shareable for Volume {
    ghost child_share = { volume_share };

    ghost whole = { λ a. volume_eq _ _ (shares_wrap w64 a.units a.fits) };

    fn child_share(self, k: u8) -> Volume {
        Volume {
            units: share_of(k, self.units),
        }
    }
}

// Part by part.
impl Shareable for Water {
    ghost child_share = { water_share };

    ghost whole = { λ a. water_eq _ _ (shares_wrap w32 a.v a.vfits) (shares_wrap w32 a.p a.pfits) (shares_wrap w32 a.q a.qfits) };

    fn child_share(self, k: u8) -> Water {
        Water {
            v: part_share(k, self.v),
            p: part_share(k, self.p),
            q: part_share(k, self.q),
        }
    }
}
