// What is told of water along a direction: of its volume, of its momentum along the direction and of the other one.
#[derive(Clone, Copy, Default, PartialEq, Eq, Debug)]
pub(crate) struct Along<T> {
    pub v: T,
    pub n: T,
    pub t: T,
}
