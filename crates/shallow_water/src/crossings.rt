// What crosses a face, by the fluxes and the contents of the cells on both sides.
ghost use Rattle.std.specs.Prelude.{◌≡◌};
ghost use Rattle.shallow_water.specs.Ranges.{Narrow, NarrowParts};
ghost use Rattle.shallow_water.specs.Waves.{crossing as crossing_of, crossings as crossings_of, water_along};

use crate::along::Along;
use crate::part::Part;
use crate::seen::Seen;
use crate::whole::floor_div;
use amount::Water;
use model::Direction;

// What crosses of one part.
fn crossing(flux_low: Part, flux_high: Part, low: Part, high: Part) -> i32
    ensures value { result ≡ crossing_of flux_low flux_high low high }
    ensures range { Narrow result }
{
    let flux = flux_low.get() + flux_high.get();
    let eightfold = 4 * flux + (low.get() - high.get());
    floor_div(eightfold, 8) as i32
}

// What crosses of each part.
pub(crate) fn crossings(
    flux_low: Along<Part>,
    flux_high: Along<Part>,
    low: Seen,
    high: Seen,
) -> Along<i32>
    ensures value { result ≡ crossings_of flux_low flux_high low high }
    ensures range { NarrowParts result }
{
    Along {
        v: crossing(flux_low.v, flux_high.v, low.v, high.v),
        n: crossing(flux_low.n, flux_high.n, low.n, high.n),
        t: crossing(flux_low.t, flux_high.t, low.t, high.t),
    }
}

// The water that is this along a direction. It undoes the exchange in `Seen::of`; one function for both would have to be told the way.
pub(crate) fn water_along(direction: Direction, parts: Along<i32>) -> Water
    ensures { result ≡ water_along direction parts }
{
    let Along { v, n, t } = parts;
    let (p, q) = match direction {
        Direction::East => (n, t),
        Direction::North => (t, n),
    };
    Water { v, p, q }
}
