ghost use Rattle.std.specs.Prelude.{◌≡◌, ℕ, ◌+◌, ◌<◌, ◌≤◌, length, Decides};
ghost use Rattle.grid.specs.Sizes.{level_height, sheet_length};
ghost use Rattle.grid.specs.Layouts.{RowMarked, LevelMarked, marks_of};

use crate::layout::Layout;
use crate::level::Level;

impl Level<'_> {
    // Whether a sheet has the marks of row y.
    fn row_agrees(self, marks: &[u8], y: usize) -> bool
        requires { y < level_height self.layout.now.size self.number }
        ensures { length marks.now ≡ sheet_length self.entry.layout.now.size → Decides result (RowMarked self.entry.layout.now marks.now self.entry.number y) }
    {
        let mut row = [0; 256];
        self.paint_row(y, &mut row);
        let width = self.width();
        let from = self.start() + y * width;
        marks.get(from..from + width) == Some(&row[..width])
    }
}

impl Layout {
    // Whether a sheet has the marks of a level. By `let .. else`, since what a closure in a closure gives is not proved.
    fn level_agrees(&self, level: usize, marks: &[u8]) -> bool
        ensures { level < self.now.size.levels → length marks.now ≡ sheet_length self.now.size → Decides result (LevelMarked self.now marks.now level) }
    {
        let Some(level) = self.level(level) else {
            return false;
        };
        (0..level.height()).all(|y| level.row_agrees(marks, y))
    }

    // Whether a sheet of marks is what the patches say. It goes by sheet row, writes nothing and allocates nothing.
    pub fn marks_agree(&self, marks: &[u8]) -> bool
        ensures { Decides result (marks.now ≡ marks_of self.now) }
    {
        marks.len() == self.sheet_length()
            && (0..self.size.levels).all(|level| self.level_agrees(level, marks))
    }
}
