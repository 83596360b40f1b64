// The two directions in which an amount moves between cells: from the low cell to the high one.
ghost use Rattle.std.specs.Prelude.{◌≡◌};

use grid::Side;

#[derive(Clone, Copy, PartialEq, Eq, Debug)]
pub enum Direction {
    East,
    North,
}

// The direction across a side of a cell or of the grid.
impl From<Side> for Direction {
    ghost use Rattle.model.specs.Sides.{across};

    ghost from_gives = { λ side direction. direction ≡ across side };

    fn from(side: Side) -> Direction {
        match side {
            Side::West | Side::East => Direction::East,
            Side::South | Side::North => Direction::North,
        }
    }
}
