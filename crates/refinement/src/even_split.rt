// Even shares.
ghost use Rattle.refinement.specs.Prolongation.{shared, EvenExamples};

use crate::shareable::Shareable;
use interfaces::Split;

// The split into quarters, whose spare units go to the first children, one to each.
#[derive(Clone, Copy, PartialEq, Eq, Debug)]
pub struct EvenSplit;

impl<V: Shareable> Split<V> for EvenSplit {
    ghost children = { λ _. shared V.child_share };

    ghost whole = { λ _. V.Shareable.whole };

    fn split(&self, parent: V) -> (V, V, V, V) {
        (
            parent.child_share(0),
            parent.child_share(1),
            parent.child_share(2),
            parent.child_share(3),
        )
    }
}

// -2, 7 and -2^63 units in four shares.
pub fn even_examples()
    ensures { EvenExamples }
{}
