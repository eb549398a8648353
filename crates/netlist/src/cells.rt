// Cells in bytes: where they begin, how one is read, how they are put in.
// Putting a cell in keeps its block's sum running: the contract tells the sum after it from the sum before. The block's check comes from that.
ghost use Rattle.std.specs.Prelude.{◌≡◌, ◌+◌, ◌*◌, ◌<◌, ◌≤◌, [], ◌∷◌, length};
ghost use Rattle.std.proofs.lemmas.List.Edits.{sets};
ghost use Rattle.model.specs.NetlistFile.{cell_limit, file_limit, cell_bytes, cell_from, cells_at, in_file, sum_with};
ghost use Rattle.netlist.specs.Offsets.{offset, after, Room};

use model::Cell;
use model::sizes::{BLOCK, BLOCK_CELLS, BLOCK_HEADER, CELL};

// Cells one after another, or in the blocks of a file.
#[derive(Clone, Copy)]
pub enum Layout {
    InList,
    InFile,
}

// The byte at which cell k begins.
pub fn offset(layout: Layout, k: usize) -> usize
    requires { k < cell_limit }
    ensures { result ≡ offset layout k }
{
    match layout {
        Layout::InList => CELL * k,
        Layout::InFile => BLOCK * (k / BLOCK_CELLS) + (BLOCK_HEADER + CELL * (k % BLOCK_CELLS)),
    }
}

// The byte of a file at which the cell behind the one at i begins: the simulator's loops over the cells go by it, and divide nowhere.
pub fn next_offset(i: usize) -> usize
    requires { i ≤ file_limit }
    ensures { result ≡ after i }
{
    let next = i + CELL;
    if next % BLOCK == 0 {
        next + BLOCK_HEADER
    } else {
        next
    }
}

// The cell that begins at byte i. No From of six bytes: callers have a slice and a place in it, and would cut the six out for it first.
pub fn cell_from(s: &[u8], i: usize) -> Cell
    requires { i + 6 ≤ length s.now }
    ensures { result ≡ cell_from s.now i }
{
    Cell {
        kind: s[i],
        delay: s[i + 1],
        a: word::get16(s, i + 2),
        b: word::get16(s, i + 4),
    }
}

pub fn cell_at(s: &[u8], layout: Layout, k: usize) -> Cell
    requires { (k < cell_limit) × (offset layout k + 6 ≤ length s.now) }
    ensures { result ≡ cell_from s.now (offset layout k) }
{
    cell_from(s, offset(layout, k))
}

// The cells that are left, from cell `next` up to cell `end`, one after another.
#[derive(Clone, Copy)]
pub struct Cells<'a> {
    pub bytes: &'a [u8],
    pub layout: Layout,
    pub next: usize,
    pub end: usize,
    ghost room: { Room layout bytes.now end },
}

impl<'a> Iterator for Cells<'a> {
    ghost use Rattle.std.specs.Iterator.{YieldsFirst, item_count};
    ghost use Rattle.netlist.specs.Left.{cells_left};

    type Item = Cell;

    ghost next_gives = { YieldsFirst cells_left };

    ghost remaining = { item_count cells_left };

    fn next(&mut self) -> Option<Cell> {
        if self.end <= self.next {
            return None;
        }
        let c = cell_at(self.bytes, self.layout, self.next);
        self.next += 1;
        Some(c)
    }
}

// Puts a cell in at i; answers the sum after it, from the sum before.
pub fn put_cell(d: &mut [u8], i: usize, c: Cell, sum: u16) -> u16
    requires { i + 6 ≤ length d.old }
    ensures put { d.new ≡ sets d.old i (cell_bytes (c ∷ [])) }
    ensures sum { result ≡ sum_with sum c }
{
    d[i] = c.kind;
    d[i + 1] = c.delay;
    word::put16(d, i + 2, c.a);
    word::put16(d, i + 4, c.b);
    let first = u16::from_le_bytes([c.kind, c.delay]);
    sum.wrapping_add(first).wrapping_add(c.a).wrapping_add(c.b)
}

// Puts n cells of s, from cell k on, in at i.
pub fn put_cells(d: &mut [u8], i: usize, s: &[u8], layout: Layout, k: usize, n: usize)
    requires { Room layout s.now (k + n) × (i + 6 * n ≤ length d.old) }
    ensures { d.new ≡ sets d.old i (cell_bytes (cells_at (offset layout) s.now k n)) }
{
    let cells = Cells {
        bytes: s,
        layout,
        next: k,
        end: k + n,
    };
    for (j, c) in cells.enumerate() {
        put_cell(d, i + CELL * j, c, 0);
    }
}
