// What a slow run is of.
ghost use Rattle.std.specs.Prelude.{ℕ, ◌*◌, ◌<◌, ◌≤◌, length, slice_index};

// n cells, six bytes each at the head of a list as long as the longest program's, of which those from `ors` on are instant, the cell that is their finish,
// the times of the kinds, and the start words. The count stands beside the list, since rings are numbered by it: as a slice of n cells each use would divide.
// That the bytes to work in have room for them each function asks for itself: they are lent to be read here and to be written there.
#[derive(Clone, Copy)]
pub struct Net<'a> {
    pub cells: &'a [u8],
    pub n: usize,
    pub finish: usize,
    pub ors: usize,
    pub times: &'a [u8],
    pub words: &'a [u8],
    ghost few: { n ≤ 1024 },
    ghost list: { 6 * n ≤ length cells.now },
    ghost short: { (k : ℕ) → slice_index times.now k < 256 },
}
