ghost use Rattle.std.specs.Prelude.{◌≡◌, ℕ, ◌*◌, ◌^◌, ◌<◌, ◌≤◌, ◌≢◌, true, false, MatchOption};
ghost use Rattle.grid.specs.Sizes.{level_width, level_height, level_start, sheet_length, in_mesh, index as index_of};

use crate::layout::Layout;
use crate::place::Place;

// How many cells the levels below each level have for each base cell.
const CELLS_BELOW: [usize; 4] = [0, 1, 5, 21];

// One level of a layout.
#[derive(Clone, Copy, PartialEq, Eq, Debug)]
pub(crate) struct Level<'a> {
    pub layout: &'a Layout,
    pub number: usize,
    ghost in_layout: { number < layout.now.size.levels },
}

impl Layout {
    // How many entries a sheet has: one for each cell of each level.
    pub fn sheet_length(&self) -> usize
        ensures { (result ≡ sheet_length self.now.size) × (result ≤ 21504) }
    {
        self.size.width * self.size.height * CELLS_BELOW[self.size.levels]
    }

    // The level of this number. None where the mesh has no such level. In a branch, since `then` does not know what the test said.
    pub(crate) fn level(&self, number: usize) -> Option<Level<'_>>
        ensures { MatchOption result (self.now.size.levels ≤ number) (λ l. (l.layout.now ≡ self.now) × (l.number ≡ number)) }
    {
        if number < self.size.levels {
            Some(Level {
                layout: self,
                number,
            })
        } else {
            None
        }
    }

    // The level of this number, where it has a cell at this place.
    pub(crate) fn level_with(&self, number: usize, place: Place) -> Option<Level<'_>>
        ensures { MatchOption result (in_mesh self.now.size number place.x place.y ≡ false) (λ l. (in_mesh self.now.size number place.x place.y ≡ true) × (l.layout.now ≡ self.now) × (l.number ≡ number)) }
    {
        self.level(number).filter(|level| level.has(place))
    }
}

impl Level<'_> {
    pub(crate) fn width(self) -> usize
        ensures { (result ≡ level_width self.entry.layout.now.size self.entry.number) × ((1 ≤ result) × (result ≤ 256)) }
    {
        self.layout.size.width << self.number
    }

    pub(crate) fn height(self) -> usize
        ensures { (result ≡ level_height self.entry.layout.now.size self.entry.number) × ((1 ≤ result) × (result ≤ 256)) }
    {
        self.layout.size.height << self.number
    }

    // Where the level begins in a sheet.
    pub(crate) fn start(self) -> usize
        ensures { (result ≡ level_start self.entry.layout.now.size self.entry.number) × (result ≤ 21504) }
    {
        self.layout.size.width * self.layout.size.height * CELLS_BELOW[self.number]
    }

    // Whether the level has a cell at this place.
    pub(crate) fn has(self, place: Place) -> bool
        ensures { result ≡ in_mesh self.entry.layout.now.size self.entry.number place.x place.y }
    {
        place.x < self.width() && place.y < self.height()
    }
}
