// Renumbering: one cell as it stands behind others, and cells of six bytes each.
// Each contract is an equation with model/CellSlices.
ghost use Rattle.std.specs.Prelude.{◌≡◌, ◌*◌, ◌≤◌, length};
ghost use Rattle.model.specs.CellSlices.{moved, moved_bytes, has_cells, renumber_call};
ghost use Rattle.model.specs.NetlistFile.{cell_limit};

use model::Cell;
use model::sizes::{CELL, MOST_CELLS};
use netlist::cells::Layout;

// The cell with its inputs k places later.
pub fn moved(c: Cell, k: u16) -> Cell
    ensures { result ≡ moved k c }
{
    netlist::moves::rewired(c, c.a.wrapping_add(k), c.b.wrapping_add(k))
}

// The cells from number `from` up to `end` moved k places on. They go by number: of chunks that are lent to be
// written a proof knows, after the loop, the lengths alone.
fn renumber_bytes(cells: &mut [u8], from: usize, end: usize, k: u16)
    requires { (end ≤ cell_limit) × (6 * end ≤ length cells.old) }
    ensures { cells.new ≡ moved_bytes k end cells.old from }
{
    for i in from..end {
        let c = netlist::cells::cell_at(cells, Layout::InList, i);
        netlist::cells::put_cell(cells, CELL * i, moved(c, k), 0);
    }
}

// Renumbering over six bytes for each cell, for callers that hold no structs. It answers whether there are cells up to `end`; where
// there are not, it does nothing.
pub fn hub_renumber(cells: &mut [u8], from: usize, end: usize, k: u16) -> bool
    ensures done { result ≡ has_cells end cells.old }
    ensures cells { cells.new ≡ renumber_call k from end cells.old }
{
    if MOST_CELLS < end {
        return false;
    }
    if cells.len() < 6 * end {
        return false;
    }
    renumber_bytes(cells, from, end, k);
    true
}
