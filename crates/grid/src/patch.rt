// A box of cells: columns x0 up to x1 and rows y0 up to y1, the last two excluded.
#[derive(Clone, Copy, Default, PartialEq, Eq, Debug)]
pub struct Patch {
    pub x0: usize,
    pub y0: usize,
    pub x1: usize,
    pub y1: usize,
}
