// The cells that a clustering is asked about.
ghost use Rattle.std.specs.Prelude.{◌≡◌, ◌*◌, length};

// The wanted and the properly nested cells of a grid, a byte for each cell, row by row from the south-west: 0 is no.
// Two maps side by side, as memory is lent: the library allocates nothing.
#[derive(Clone, Copy, PartialEq, Eq, Debug)]
pub struct CellMaps<'a> {
    pub width: usize,
    pub height: usize,
    pub wanted: &'a [u8],
    pub nested: &'a [u8],
    ghost wantedwhole: { length wanted.now ≡ width * height },
    ghost nestedwhole: { length nested.now ≡ width * height },
}
