// A command on the mesh.
ghost use Rattle.std.specs.Prelude.{◌≡◌};
ghost use Rattle.sheets.specs.Lists.{lent, left};
ghost use Rattle.mesh.specs.Reads.{state_of};
ghost use Rattle.scenario.specs.Answers.{told, executed};

use mesh::{Audit, Mesh};
use reader::{Command, Kind};
use sheets::Sheets;
use syntax::Fault;

// Does what a command says. What the mesh refuses becomes the fault of the line.
pub(crate) fn execute<V: Kind>(
    mesh: &mut Mesh<V>,
    sheets: Sheets<'_, V>,
    command: Command<V>,
) -> Result<Option<Audit<V>>, Fault>
    ensures { record { answer = told result; state = state_of V.Amount.addition mesh.new (left sheets.exit); sheets = left sheets.exit } ≡ executed V.Amount.addition (state_of V.Amount.addition mesh.old (lent sheets.entry)) (lent sheets.entry) command }
{
    match command {
        Command::Header => Ok(None),
        Command::Pour { x, y, amount } => {
            // taken apart: the proof loses what a parameter of `&mut` fields lends once that is moved whole
            let Sheets {
                contents,
                before,
                corrections,
                marks,
                wanted,
            } = sheets;
            let sheets = Sheets {
                contents,
                before,
                corrections,
                marks,
                wanted,
            };
            mesh.pour(sheets, x, y, amount)?;
            Ok(None)
        }
        Command::Audit => Ok(Some(mesh.audit(&sheets)?)),
    }
}
