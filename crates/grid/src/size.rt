// How large a mesh is: width by height base cells, and a number of levels.
#[derive(Clone, Copy, PartialEq, Eq, Debug)]
pub struct Size {
    pub width: usize,
    pub height: usize,
    pub levels: usize,
}
