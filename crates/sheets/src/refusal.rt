ghost use Rattle.std.specs.Prelude.{◌≡◌};
ghost use Rattle.sheets.specs.Numbers.{number_of};

// Why a call was turned away. Each case has a number, which docs/REFUSALS.md explains.
#[derive(Clone, Copy, PartialEq, Eq, Debug)]
pub enum Refusal {
    // width, height, their product or the number of levels is out of its range
    Size = 1,
    // a sheet has not one entry for each cell
    SheetLength = 2,
    // the place is outside the grid
    Outside = 4,
    // the marks differ from what the patches say
    Marks = 5,
}

impl Refusal {
    // The number of a refusal. A name, which says more than a cast where it is called.
    pub fn number(self) -> u8
        ensures { result ≡ number_of self }
    {
        self as u8
    }
}
