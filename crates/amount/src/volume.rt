// A volume of water in whole units: a signed 64-bit number whose addition wraps at 2^64.
ghost use Rattle.std.specs.Prelude.{◌^◌, ◌<◌};
ghost use Rattle.std.specs.Int.Signed.{mag};

#[derive(Clone, Copy, PartialEq, Eq, Debug)]
pub struct Volume {
    pub units: i64,
    ghost fits: { mag units < 2 ^ 63 },
}
