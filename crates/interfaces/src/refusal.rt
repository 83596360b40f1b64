ghost use Rattle.std.specs.Prelude.{◌≡◌};

// Why a rule is not made.
#[derive(Clone, Copy, PartialEq, Eq, Debug)]
pub enum RuleRefusal {
    // a number is outside its range
    OutOfRange = 14,
}

impl RuleRefusal {
    ghost use Rattle.interfaces.specs.Refusals.{number_of};

    // The number of a refusal, as docs/REFUSALS.md explains it. A name, which says more than a cast where it is called.
    pub fn number(self) -> u8
        ensures { result ≡ number_of self }
    {
        self as u8
    }
}
