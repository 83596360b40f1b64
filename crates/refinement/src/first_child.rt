// All to the first child.
ghost use Rattle.refinement.specs.Prolongation.{first_child};
ghost use Rattle.std.proofs.Common.{rules};

use amount::Amount;
use interfaces::Split;

// The split that gives all to the south-west child.
#[derive(Clone, Copy, PartialEq, Eq, Debug)]
pub struct FirstChild;

impl<V: Amount> Split<V> for FirstChild {
    ghost children = { λ _. first_child V.Amount.addition };

    ghost whole = { Prim.search rules };

    fn split(&self, parent: V) -> (V, V, V, V) {
        (parent, V::zero(), V::zero(), V::zero())
    }
}
