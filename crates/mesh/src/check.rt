ghost use Rattle.std.specs.Prelude.{◌≡◌, true, false, MatchResult};
ghost use Rattle.std.specs.Str.{bytes_eq};
ghost use Rattle.grid.specs.Layouts.{marks_of};

use crate::mesh::Mesh;
use grid::Layout;
use sheets::Refusal;

// A sheet of marks that says what the patches of a layout say. The contents, which have its length, stay apart: a `&mut` in a struct
// that is passed on loses what it borrows.
#[derive(Clone, Copy, PartialEq, Eq, Debug)]
pub(crate) struct Marked<'a> {
    pub layout: &'a Layout,
    pub marks: &'a [u8],
    ghost agrees: { marks.now ≡ marks_of layout.now },
}

impl<V> Mesh<V> {
    // Refuses a sheet of marks that differs from what the patches say.
    pub(crate) fn check_marks<'a>(&'a self, marks: &'a [u8]) -> Result<Marked<'a>, Refusal>
        ensures { MatchResult result (λ m. (bytes_eq marks.now (marks_of self.now.layout) ≡ true) × (m.layout.now ≡ self.now.layout) × (m.marks.now ≡ marks.now)) (λ e. (bytes_eq marks.now (marks_of self.now.layout) ≡ false) × (e ≡ Refusal.Marks)) }
    {
        if self.layout.marks_agree(marks) {
            Ok(Marked {
                layout: &self.layout,
                marks,
            })
        } else {
            Err(Refusal::Marks)
        }
    }
}
