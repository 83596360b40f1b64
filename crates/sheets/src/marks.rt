ghost use Rattle.std.specs.Prelude.{◌≡◌, if◌then◌else◌, nat_lt};

use grid::Mark;

// A byte, as sheets of marks are lent as bytes, by a rule of the project.
// The mark, in a newly opened mesh, of the cell with this index: the base cells stand first, and they alone are live.
pub fn first_mark(index: usize, base_cells: usize) -> u8
    ensures { result ≡ (if nat_lt index base_cells then 1 else 0) }
{
    let mark = if index < base_cells {
        Mark::Leaf
    } else {
        Mark::Dead
    };
    u8::from(mark)
}
