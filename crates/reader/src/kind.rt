// An amount kind as a scenario writes it.
ghost use Rattle.std.specs.Prelude.{◌≡◌, ◌++◌, string_bytes, OnOk};
ghost use Rattle.reader.specs.Forms.{Form};

use amount::Amount;
use std::alloc::AllocError;
use syntax::Fault;

pub trait Kind: Amount {
    ghost form: { Form Self };

    // How many fields a pour line has. A function, since a constant would want a ghost member beside it and a proof in each impl.
    fn pour_fields() -> usize
        ensures { result ≡ form.count };

    // The amount in the fields of a pour line, from field 3 on.
    fn read(line: &[u8]) -> Option<Self>
        ensures { result ≡ form.read line.now };

    // Reads a line that names a flux rule for this kind.
    fn read_rule(line: &[u8]) -> Result<(), Fault>
        ensures { result ≡ form.rule line.now };

    // Writes the fields of an amount, each after a comma: the form of a scenario, and so no `Display` of the amount.
    fn write(self, out: &mut String) -> Result<(), AllocError>
        ensures { OnOk result (string_bytes out.new ≡ string_bytes out.old ++ form.show self) };
}
