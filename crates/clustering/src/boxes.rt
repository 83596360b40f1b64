// Where a clustering writes its boxes.
ghost use Rattle.std.specs.Prelude.{◌≡◌, [], ◌∷◌, OnErr};
ghost use Rattle.clustering.specs.Rows.{Wrote};

use grid::Patch;
use interfaces::TooMany;

// The patches that are lent for the boxes, by a rule of the project. The first of them, so many as the count says, are written. That
// there are so many is asked where it is needed: as a ghost field it loses what the caller's patches end as.
#[derive(Drop)]
pub(crate) struct Boxes<'a> {
    pub(crate) patches: &'a mut [Patch],
    pub(crate) count: usize,
}

impl Boxes<'_> {
    // Writes a box after the others; refused, it changes nothing. By `get_mut` it is not proved that the other patches stay as they are.
    pub(crate) fn push(&mut self, patch: Patch) -> Result<(), TooMany>
        ensures written { Wrote result self.old self.new (patch ∷ []) }
        ensures refused { OnErr result (self.new ≡ self.old) }
    {
        if self.count >= self.patches.len() {
            return Err(TooMany);
        }
        self.patches[self.count] = patch;
        self.count += 1;
        Ok(())
    }
}
