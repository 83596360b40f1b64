// Water on the move: its volume v, its east momentum p and its north momentum q, signed 32-bit numbers that each wrap at 2^32.
ghost use Rattle.std.specs.Prelude.{◌^◌, ◌<◌};
ghost use Rattle.std.specs.Int.Signed.{mag};

#[derive(Clone, Copy, PartialEq, Eq, Debug)]
pub struct Water {
    pub v: i32,
    pub p: i32,
    pub q: i32,
    ghost vfits: { mag v < 2 ^ 31 },
    ghost pfits: { mag p < 2 ^ 31 },
    ghost qfits: { mag q < 2 ^ 31 },
}
