// Whole numbers that are rounded down.
ghost use Rattle.std.specs.Prelude.{◌≡◌, pos, ◌<ℤ◌};
ghost use Rattle.interfaces.specs.Whole.{floor_div};

// z / d, rounded down, for what crosses a face and for a momentum that is carried.
pub(crate) fn floor_div(z: i64, d: i64) -> i64
    requires { pos 0 <ℤ d }
    ensures { result ≡ floor_div z d }
{
    z.div_euclid(d)
}
