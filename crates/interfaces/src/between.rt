// What moves between two cells.
ghost use Rattle.std.specs.Prelude.{◌≡◌};
ghost use Rattle.interfaces.specs.Sides.{inward_over};

use amount::Amount;
use grid::Side;

// How much moves from one cell to the next, by what is seen of them.
pub trait Between<T, V: Amount> {
    ghost moved: { Self → T → T → V };

    // The amount that moves from the low (west or south) of two cells to the high one.
    fn between(&self, low: T, high: T) -> V
        ensures { result ≡ moved self.now low high };

    // The amount that moves inward over a side of the grid, from the cell outside to the one inside.
    final fn inward_over(&self, side: Side, outer: T, inner: T) -> V
        ensures { result ≡ inward_over V.Amount.negation (moved self.now) side outer inner }
    {
        match side {
            Side::West | Side::South => self.between(outer, inner),
            Side::East | Side::North => self.between(inner, outer).neg(),
        }
    }
}
