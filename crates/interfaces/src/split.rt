// The split of a parent's content.
ghost use Rattle.std.specs.Prelude.{◌≡◌};
ghost use Rattle.model.specs.Interfaces.{Children, Splits};
ghost use Rattle.interfaces.specs.Answers.{in_order};

use amount::Amount;

// What the four children of a cell hold when it is refined.
pub trait Split<V: Amount> {
    ghost children: { Self → V → Children V };

    // The contents of the children, in their order: SW, SE, NW, NE.
    fn split(&self, parent: V) -> (V, V, V, V)
        ensures { result ≡ in_order (children self.now parent) };

    // The four children add up to the parent.
    ghost whole: { (s : Self) → Splits V.Amount.addition (children s) };
}
