// The lines after the first.
ghost use Rattle.sheets.specs.Lists.{lent};
ghost use Rattle.mesh.specs.Reads.{state_of};
ghost use Rattle.scenario.specs.Printed.{Prints};
ghost use Rattle.scenario.specs.Program.{run_lines};
ghost use Rattle.syntax.specs.declared.word.Phase.TheVariants.{Rule};
ghost use Rattle.scenario.specs.Left.{lines_left};

use crate::cut_lines::Lines;
use crate::execute::execute;
use crate::print::{write_answer, write_fault};
use mesh::Mesh;
use reader::{Kind, read_line};
use sheets::Sheets;
use std::alloc::AllocError;
use syntax::Phase;

// Runs the lines of a file that come after its first.
pub(crate) fn run_lines<V: Kind>(
    out: &mut String,
    mesh: &mut Mesh<V>,
    sheets: Sheets<'_, V>,
    lines: Lines<'_>,
) -> Result<(), AllocError>
    ensures { Prints result out.old out.new (run_lines V.Amount.addition V.Kind.form 2 Rule (state_of V.Amount.addition mesh.old (lent sheets.entry)) (lent sheets.entry) (lines_left lines.entry)) }
{
    // taken apart, since each line is lent the sheets anew, and a `&mut` to `Sheets` loses what they borrow
    let Sheets {
        contents,
        before,
        corrections,
        marks,
        wanted,
    } = sheets;
    let mut phase = Phase::Rule;
    for (index, line) in lines.enumerate() {
        let number = index + 2;
        // a match: a fault is printed, and not passed up
        let (next, command) = match read_line(phase, line) {
            Ok(said) => said,
            Err(fault) => return write_fault(out, number, fault),
        };
        let sheets = Sheets {
            contents: &mut *contents,
            before: &mut *before,
            corrections: &mut *corrections,
            marks: &mut *marks,
            wanted: &mut *wanted,
        };
        let answer = execute(mesh, sheets, command);
        write_answer(out, number, answer)?;
        phase = next;
    }
    Ok(())
}
