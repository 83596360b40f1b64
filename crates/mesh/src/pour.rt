ghost use Rattle.std.specs.Prelude.{◌≡◌, ◌<◌, true, length, slice_index_or, slice_set};
ghost use Rattle.grid.specs.Sizes.{in_mesh, sheet_length};
ghost use Rattle.grid.specs.Layouts.{hierarchy_of};
ghost use Rattle.model.specs.Fields.{fields_of};
ghost use Rattle.model.specs.Pour.{pour as pour_rule};
ghost use Rattle.model.specs.Calls.{pour_call};
ghost use Rattle.sheets.specs.Lists.{lent, left};
ghost use Rattle.mesh.specs.Reads.{state_of, outcome};

use crate::check::Marked;
use crate::mesh::Mesh;
use amount::Amount;
use grid::{Mark, Place};
use sheets::{Refusal, Sheets};

// Adds an amount to one entry of a sheet.
fn add_at<V: Amount>(contents: &mut [V], index: usize, amount: V)
    requires { index < length contents.old }
    ensures { contents.new ≡ slice_set contents.old index (V.Amount.addition.◌⊕◌ (slice_index_or contents.old index V.Amount.addition.zero) amount) }
{
    contents[index] = contents[index].add(amount);
}

impl Marked<'_> {
    // Adds an amount to a base cell and, while the cell is covered, to its south-west child and so on down.
    fn pour_down<V: Amount>(self, contents: &mut [V], base: Place, amount: V)
        requires whole { length contents.old ≡ sheet_length self.layout.now.size }
        requires inside { in_mesh self.layout.now.size 0 base.x base.y ≡ true }
        ensures { fields_of self.entry.layout.now.size V.Amount.addition.zero contents.new ≡ pour_rule V.Amount.addition (hierarchy_of self.entry.layout.now) self.entry.layout.now.size.levels 0 base.x base.y amount (fields_of self.entry.layout.now.size V.Amount.addition.zero contents.old) }
    {
        let mut place = base;
        // by its levels, since a place is carried down from each; no cell on the way is missing, so neither `else` is reached
        for level in 0..self.layout.size.levels {
            let Some(index) = self.layout.index(level, place) else {
                return;
            };
            add_at(contents, index, amount);
            if !Mark::Covered.is(self.marks[index]) {
                return;
            }
            let Some((south_west, ..)) = self.layout.children(level, place) else {
                return;
            };
            place = south_west;
        }
    }
}

impl<V: Amount> Mesh<V> {
    // Adds an amount to the sum poured and to the base cell at column x and row y and, while a cell is covered,
    // to its south-west child and so on down.
    // Refused: 2 a sheet of the wrong length, 4 a place outside the grid, 5 marks that differ from what the patches say.
    pub fn pour(
        &mut self,
        sheets: Sheets<'_, V>,
        x: usize,
        y: usize,
        amount: V,
    ) -> Result<(), Refusal>
        ensures { outcome V.Amount.addition result self.new (left sheets.exit) ≡ pour_call V.Amount.addition (state_of V.Amount.addition self.old (lent sheets.entry)) (lent sheets.entry) x y amount }
    {
        let base = Place { x, y };
        sheets.check_length(self.layout.sheet_length())?;
        self.layout.index(0, base).ok_or(Refusal::Outside)?;
        // taken apart: marks are read while contents are written
        let Sheets {
            contents,
            marks,
            ..
        } = sheets;
        self.check_marks(marks)?.pour_down(contents, base, amount);
        self.poured = self.poured.add(amount);
        Ok(())
    }
}
