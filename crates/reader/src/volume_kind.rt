// Volumes as a scenario writes them. Fields are taken by `let .. else`, a rule of the project.
ghost use Rattle.reader.specs.Forms.{volume_form};

use crate::fields::{expect_fields, read_amount};
use crate::kind::Kind;
use crate::names::{RULES, RuleName};
use amount::Volume;
use std::alloc::AllocError;
use syntax::{Fault, read_choice};
use text::{number_field, write_number};

impl Kind for Volume {
    ghost form = { volume_form };

    fn pour_fields() -> usize {
        4
    }

    fn read(line: &[u8]) -> Option<Volume> {
        let Some(units) = read_amount(line, 3) else {
            return None;
        };
        Some(Volume { units })
    }

    fn read_rule(line: &[u8]) -> Result<(), Fault> {
        expect_fields(line, 4)?;
        let Some(RuleName::Advect) = read_choice(line, 1, &RULES) else {
            return Err(Fault::Fields);
        };
        let Some(_) = number_field(line, 2, -128, 128) else {
            return Err(Fault::Number);
        };
        let Some(_) = number_field(line, 3, -128, 128) else {
            return Err(Fault::Number);
        };
        Ok(())
    }

    fn write(self, out: &mut String) -> Result<(), AllocError> {
        write_number(out, self.units)
    }
}
