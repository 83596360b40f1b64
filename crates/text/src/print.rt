// Numbers as they are written. Text goes to a string, which fails only for want of memory.
ghost use Rattle.std.specs.Prelude.{◌≡◌, ◌++◌, string_bytes, OnOk};
ghost use Rattle.text.specs.Printed.{number_field};

use std::alloc::AllocError;

// Writes a comma, and then a number: the form of a scenario, and so no `Display`.
pub fn write_number(out: &mut String, n: i64) -> Result<(), AllocError>
    ensures { OnOk result (string_bytes out.new ≡ string_bytes out.old ++ number_field n) }
{
    write!(out, ",{n}")
}
