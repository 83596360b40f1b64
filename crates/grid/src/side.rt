// The four sides of a cell and of the grid.
#[derive(Clone, Copy, PartialEq, Eq, Debug)]
pub enum Side {
    West,
    East,
    South,
    North,
}
