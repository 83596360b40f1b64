// Why a line was refused, and by whom.
ghost use Rattle.std.specs.Prelude.{◌≡◌, Some};
ghost use Rattle.syntax.specs.declared.fault.Fault.TheVariants.{Mesh};
ghost use Rattle.syntax.specs.Faults.{number_of, layer_of, letter_of};

use sheets::Refusal;
use std::fmt;

// Why a line, or the whole file, was refused: by the reader, or by the mesh with its own refusal.
#[derive(Clone, Copy, PartialEq, Eq, Debug)]
pub enum Fault {
    // 10: the file is over 12,288 bytes, or its last line is unended
    File,
    // 11: an unknown first word
    Word,
    // 12: a line out of order
    Order,
    // 13: a wrong number of fields, or a wrong name in one
    Fields,
    // 14: a malformed number, or one outside its range
    Number,
    // what the mesh refused
    Mesh(Refusal),
}

// What the mesh refuses is a fault that carries the refusal whole.
impl From<Refusal> for Fault {
    ghost from_gives = { λ e r. r ≡ Mesh e };

    fn from(refusal: Refusal) -> Fault {
        Fault::Mesh(refusal)
    }
}

impl Fault {
    // The number of a fault, as docs/REFUSALS.md explains it. A match, as what the mesh refused carries its own number.
    pub fn number(self) -> u8
        ensures { result ≡ number_of self }
    {
        match self {
            Fault::File => 10,
            Fault::Word => 11,
            Fault::Order => 12,
            Fault::Fields => 13,
            Fault::Number => 14,
            Fault::Mesh(refusal) => refusal.number(),
        }
    }

    // Which layer refused. A name, since a `From` would not say what is asked.
    pub fn layer(self) -> Layer
        ensures { result ≡ layer_of self }
    {
        match self {
            Fault::Mesh(_) => Layer::Mesh,
            _ => Layer::Reader,
        }
    }
}

// Who refused.
#[derive(Clone, Copy, PartialEq, Eq, Debug)]
pub enum Layer {
    Reader,
    Mesh,
}

impl fmt::Display for Layer {
    ghost output = { λ layer. Some (letter_of layer) };

    fn fmt<W: fmt::Write>(&self, f: &mut fmt::Formatter<W>) -> fmt::Result {
        f.write_str(match self {
            Layer::Reader => "r",
            Layer::Mesh => "m",
        })
    }
}
