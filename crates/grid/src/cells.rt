ghost use Rattle.std.specs.Prelude.{◌≡◌};
ghost use Rattle.grid.specs.Cells.{touching, parent_of};

use crate::place::Place;

impl Place {
    // The place of the parent, on the coarser level.
    pub fn parent(self) -> Place
        ensures { result ≡ parent_of self }
    {
        Place {
            x: self.x / 2,
            y: self.y / 2,
        }
    }

    // Whether a cell of the same level shares a side or a corner with this one: whether it is in its ring.
    pub fn touches(self, other: Place) -> bool
        ensures { result ≡ touching self.x self.y other.x other.y }
    {
        self != other && self.x.abs_diff(other.x) <= 1 && self.y.abs_diff(other.y) <= 1
    }
}
