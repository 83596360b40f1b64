ghost use Rattle.std.specs.Prelude.{◌≡◌, ◌==◌};
ghost use Rattle.grid.specs.Marks.{byte_of};

// What a cell is: not live, live and uncovered, or covered. A sheet of marks has it as a byte.
#[derive(Clone, Copy, PartialEq, Eq, Debug)]
pub enum Mark {
    Dead = 0,
    Leaf = 1,
    Covered = 2,
}

impl From<Mark> for u8 {
    ghost from_gives = { λ mark byte. byte ≡ byte_of mark };

    fn from(mark: Mark) -> u8 {
        mark as u8
    }
}

impl Mark {
    // Whether a byte of a sheet is this mark.
    pub fn is(self, byte: u8) -> bool
        ensures { result ≡ (byte == byte_of self) }
    {
        byte == u8::from(self)
    }
}
