ghost use Rattle.std.specs.Prelude.{◌≡◌};
ghost use Rattle.model.specs.Calls.{audit_call};
ghost use Rattle.sheets.specs.Lists.{lent};
ghost use Rattle.mesh.specs.Reads.{state_of, outcome};
ghost use Rattle.mesh.specs.Reports.{reported};

use crate::mesh::Mesh;
use amount::Amount;
use sheets::{Refusal, Sheets};

// What an audit reports.
#[derive(Clone, Copy, PartialEq, Eq, Debug)]
pub struct Audit<V> {
    // how many steps were accepted
    pub steps: u32,
    // what all live uncovered cells hold
    pub total: V,
    // the sum of what was poured
    pub poured: V,
    // the sum of what came in over the boundary
    pub inward: V,
}

impl<V: Amount> Mesh<V> {
    // Reports the accepted steps, the composite total and the sums poured and inward. It changes nothing.
    // Refused: 2 a sheet of the wrong length, 5 marks that differ from what the patches say.
    pub fn audit(&self, sheets: &Sheets<'_, V>) -> Result<Audit<V>, Refusal>
        ensures { outcome V.Amount.addition (reported result) self.now (lent sheets.now) ≡ audit_call V.Amount.addition (state_of V.Amount.addition self.now (lent sheets.now)) (lent sheets.now) }
    {
        sheets.check_length(self.layout.sheet_length())?;
        let marked = self.check_marks(sheets.marks)?;
        Ok(Audit {
            steps: self.steps,
            total: marked.leaf_total(sheets.contents),
            poured: self.poured,
            inward: self.inward,
        })
    }
}
