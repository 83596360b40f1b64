// What a line after the first tells the run to do.
#[derive(Clone, Copy, PartialEq, Eq, Debug)]
pub enum Command<V> {
    // a choice of the header: nothing is done yet. An `Option` around the others would be no plainer.
    Header,
    Pour { x: usize, y: usize, amount: V },
    Audit,
}
