// Waters as a scenario writes them. Fields are taken by `let .. else`, a rule of the project.
ghost use Rattle.std.specs.Prelude.{◌≡◌};
ghost use Rattle.reader.specs.Forms.{amount_field, water_form};

use crate::fields::{expect_fields, read_amount};
use crate::kind::Kind;
use crate::names::{RULES, RuleName};
use amount::Water;
use std::alloc::AllocError;
use syntax::{Fault, read_choice};
use text::number_field;

// One part of an amount, from the field of a line.
fn read_part(line: &[u8], number: usize) -> Option<i32>
    ensures { result ≡ amount_field line.now number }
{
    let Some(part) = read_amount(line, number) else {
        return None;
    };
    Some(part as i32)
}

impl Kind for Water {
    ghost form = { water_form };

    fn pour_fields() -> usize {
        6
    }

    fn read(line: &[u8]) -> Option<Water> {
        let Some(v) = read_part(line, 3) else {
            return None;
        };
        let Some(p) = read_part(line, 4) else {
            return None;
        };
        let Some(q) = read_part(line, 5) else {
            return None;
        };
        Some(Water { v, p, q })
    }

    fn read_rule(line: &[u8]) -> Result<(), Fault> {
        expect_fields(line, 3)?;
        let Some(RuleName::Water) = read_choice(line, 1, &RULES) else {
            return Err(Fault::Fields);
        };
        let Some(_) = number_field(line, 2, 8, 24) else {
            return Err(Fault::Number);
        };
        Ok(())
    }

    fn write(self, out: &mut String) -> Result<(), AllocError> {
        write!(out, ",{},{},{}", self.v, self.p, self.q)
    }
}
