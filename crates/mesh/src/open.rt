ghost use Rattle.std.specs.Prelude.{◌≡◌, length, if◌then◌else◌, nat_eq};
ghost use Rattle.grid.specs.Sizes.{sheet_length, sheet};
ghost use Rattle.model.specs.Calls.{open_call};
ghost use Rattle.sheets.specs.Lists.{lent, left};
ghost use Rattle.mesh.specs.Reads.{opening};

use crate::mesh::Mesh;
use amount::Amount;
use grid::{Layout, Size};
use sheets::{Refusal, Sheets, first_mark};

// Marks the base cells as live and uncovered, and no other cell as live: entry by entry, as `first_mark` says it. The length is asked here,
// as of this slice it is asked nowhere else.
fn mark_base(layout: &Layout, marks: &mut [u8])
    requires { length marks.old ≡ sheet_length layout.now.size }
    ensures { marks.new ≡ sheet layout.now.size (λ l x y. (if nat_eq l 0 then 1 else 0)) }
{
    let base_cells = layout.size.width * layout.size.height;
    for (index, mark) in marks.iter_mut().enumerate() {
        *mark = first_mark(index, base_cells);
    }
}

impl<V: Amount> Mesh<V> {
    // Opens a mesh of this size, with nothing in it. Contents and the working sheets become zero, marks 1 on level 0 and 0 elsewhere.
    // Refused: 1 a size out of range, 2 a sheet of the wrong length.
    pub fn open(size: Size, sheets: Sheets<'_, V>) -> Result<Mesh<V>, Refusal>
        ensures { opening V.Amount.addition result (left sheets.exit) ≡ open_call V.Amount.addition size (lent sheets.entry) }
    {
        // by `let .. else`, since `ok_or` and `?` each copy the layout
        let Some(layout) = Layout::flat(size) else {
            return Err(Refusal::Size);
        };
        sheets.check_length(layout.sheet_length())?;
        // taken apart: each sheet is written by itself
        let Sheets {
            contents,
            before,
            corrections,
            marks,
            wanted,
        } = sheets;
        let zero = V::zero();
        contents.fill_with(|| zero);
        before.fill_with(|| zero);
        corrections.fill_with(|| zero);
        mark_base(&layout, marks);
        wanted.fill(0);
        Ok(Mesh {
            layout,
            steps: 0,
            poured: zero,
            inward: zero,
        })
    }
}
