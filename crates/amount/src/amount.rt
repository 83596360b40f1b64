// What an amount kind is.
ghost use Rattle.std.specs.Prelude.{◌≡◌};
ghost use Rattle.amount.specs.Additions.{Addition, Sums};

// A kind of amount. Zero and addition come first and name nothing of the negation below them; the laws stand last, those of zero and
// addition before the one that names the negation.
pub trait Amount: Copy {
    ghost addition: { Addition Self };

    fn zero() -> Self
        ensures { result ≡ addition.zero };

    fn add(self, other: Self) -> Self
        ensures { result ≡ addition.◌⊕◌ self other };

    ghost negation: { Self → Self };

    // The amount that takes this one away: the two add up to zero.
    fn neg(self) -> Self
        ensures value { result ≡ negation self }
        ensures inverse { addition.◌⊕◌ self result ≡ addition.zero };

    ghost sums: { Sums addition };

    ghost inverse: { (x : Self) → addition.◌⊕◌ x (negation x) ≡ addition.zero };
}
