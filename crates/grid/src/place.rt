// Where a cell lies on its level: x counts from the west, y from the south, both from 0.
#[derive(Clone, Copy, PartialEq, Eq, Debug)]
pub struct Place {
    pub x: usize,
    pub y: usize,
}
