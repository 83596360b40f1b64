// Sums over slices, for every kind.
ghost use Rattle.std.specs.Prelude.{◌≡◌};
ghost use Rattle.amount.specs.Additions.{sum as sum_of};

use crate::amount::Amount;

// The sum of a list of amounts; of none, zero.
pub fn sum<V: Amount>(amounts: &[V]) -> V
    ensures { result ≡ sum_of V.Amount.addition amounts.now }
{
    let mut so_far = V::zero();
    for amount in amounts {
        so_far = so_far.add(*amount);
    }
    so_far
}
