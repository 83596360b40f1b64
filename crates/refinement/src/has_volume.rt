// Amounts that have a volume.
ghost use Rattle.std.specs.Prelude.{◌≡◌, ℤ};

use amount::{Amount, Volume, Water};

// An amount whose volume can be told.
pub trait HasVolume: Amount {
    ghost volume: { Self → ℤ };

    fn volume(&self) -> i64
        ensures { result ≡ volume self.now };
}

impl HasVolume for Volume {
    ghost volume = { λ a. a.units };

    fn volume(&self) -> i64 {
        self.units
    }
}

impl HasVolume for Water {
    ghost volume = { λ a. a.v };

    fn volume(&self) -> i64 {
        i64::from(self.v)
    }
}
