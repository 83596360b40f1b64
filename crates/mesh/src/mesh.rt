use grid::Layout;

// A mesh: its layout, the number of accepted steps, and the sums of what was poured and of what came in over the boundary.
// Its calls alone make and change one, and none compares two: no equality.
#[derive(Drop)]
pub struct Mesh<V> {
    pub(crate) layout: Layout,
    pub(crate) steps: u32,
    pub(crate) poured: V,
    pub(crate) inward: V,
}
