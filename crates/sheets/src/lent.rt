// The five sheets that every call is lent: one entry for each cell of each level, level 0 first, each level row by row
// from the south-west. Before, corrections and wanted are working sheets and may hold anything. Slices, and five of them, by a rule of
// the project: memory is lent. No equality, as they are lent to be written.
#[derive(Drop)]
pub struct Sheets<'a, V> {
    // what each cell holds
    pub contents: &'a mut [V],
    // what each cell held before a level step
    pub before: &'a mut [V],
    // what flux registers add to each cell
    pub corrections: &'a mut [V],
    // 0 for a cell that is not live, 1 for a live uncovered one, 2 for a covered one
    pub marks: &'a mut [u8],
    // which cells a regrid wants covered
    pub wanted: &'a mut [u8],
}
