// The contents of a cell's four neighbours. An absent neighbour counts as the cell itself.
#[derive(Clone, Copy, PartialEq, Eq, Debug)]
pub struct Neighbours<V> {
    pub west: V,
    pub east: V,
    pub south: V,
    pub north: V,
}
