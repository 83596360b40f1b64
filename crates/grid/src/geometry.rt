ghost use Rattle.std.specs.Prelude.{◌≡◌, ◌≢◌, ℕ, ◌+◌, ◌<◌, ◌≤◌, true, if◌then◌else◌, Some, None, MatchOption};
ghost use Rattle.grid.specs.Sizes.{in_mesh, sheet_length, index as index_of};
ghost use Rattle.grid.specs.Cells.{neighbour_of, children_of};

use crate::layout::Layout;
use crate::place::Place;
use crate::side::Side;

// A level and a place are told apart, as the interfaces tell them: callers go over levels, and over the places of one, so that one
// value of both would be made and taken apart at each call.
impl Layout {
    // Where the entry of a cell stands in a sheet. None where the mesh has no such cell.
    pub fn index(&self, level: usize, place: Place) -> Option<usize>
        ensures { result ≡ (if in_mesh self.now.size level place.x place.y then Some (index_of self.now.size level place.x place.y) else None) }
    {
        let level = self.level_with(level, place)?;
        Some(level.start() + place.y * level.width() + place.x)
    }

    // The cell of one level whose entry stands at an index. None where the level has no such cell.
    fn cell_of(&self, level: usize, index: usize) -> Option<(usize, Place)>
        ensures { MatchOption result ((x y : ℕ) → in_mesh self.now.size level x y ≡ true → index_of self.now.size level x y ≢ index) (λ c. (in_mesh self.now.size c.0 c.1.x c.1.y ≡ true) × (index_of self.now.size c.0 c.1.x c.1.y ≡ index)) }
    {
        let found = self.level(level)?;
        let offset = index.checked_sub(found.start())?;
        let width = found.width();
        // asked first, since a division costs more
        if offset >= width * found.height() {
            return None;
        }
        let place = Place {
            x: offset % width,
            y: offset / width,
        };
        Some((level, place))
    }

    // The cell, its level and its place, whose entry stands at an index. None past the end of a sheet.
    pub fn cell(&self, index: usize) -> Option<(usize, Place)>
        ensures { MatchOption result (sheet_length self.now.size ≤ index) (λ c. (in_mesh self.now.size c.0 c.1.x c.1.y ≡ true) × (index_of self.now.size c.0 c.1.x c.1.y ≡ index)) }
    {
        (0..self.size.levels).find_map(|level| self.cell_of(level, index))
    }

    // The place next to a cell on one side. None past the edge of the level.
    pub fn neighbour(&self, level: usize, place: Place, side: Side) -> Option<Place>
        ensures { result ≡ neighbour_of self.now.size level place side }
    {
        let level = self.level_with(level, place)?;
        let Place { x, y } = place;
        match side {
            Side::West if x > 0 => Some(Place { x: x - 1, y }),
            Side::East if x + 1 < level.width() => Some(Place { x: x + 1, y }),
            Side::South if y > 0 => Some(Place { x, y: y - 1 }),
            Side::North if y + 1 < level.height() => Some(Place { x, y: y + 1 }),
            _ => None,
        }
    }

    // The places of a cell's children on the next level, in their order: SW, SE, NW, NE. None on the last level.
    pub fn children(&self, level: usize, place: Place) -> Option<(Place, Place, Place, Place)>
        ensures { result ≡ children_of self.now.size level place }
    {
        self.level_with(level, place)?;
        self.level(level + 1)?;
        let x = 2 * place.x;
        let y = 2 * place.y;
        let south_west = Place { x, y };
        let south_east = Place { x: x + 1, y };
        let north_west = Place { x, y: y + 1 };
        let north_east = Place { x: x + 1, y: y + 1 };
        Some((south_west, south_east, north_west, north_east))
    }
}
