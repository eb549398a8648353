// A part's cells, moved from its own netlist file to where it stands in the whole. What an input that names a cell becomes is told by where in the
// part's own netlist that cell stands; which inputs name cells is told by the table of cell kinds.
ghost use Rattle.std.specs.Prelude.{◌≡◌, map, ℕ, ◌+◌, ◌*◌, ◌≤◌, length};
ghost use Rattle.std.proofs.lemmas.List.Edits.{sets};
ghost use Rattle.model.specs.NetlistFile.{cell_bytes, cells_at, in_file};
ghost use Rattle.model.specs.CellSlices.{rewired};
ghost use Rattle.netlist.specs.Offsets.{Room};
ghost use Rattle.netlist.specs.declared.cells.Layout.TheVariants.{InFile};
ghost use Rattle.model.specs.Program.{Code};
ghost use Rattle.joiner.specs.Stands.{moves, Fits, Low, LowCells, PartReady, OwnOf, PartDone};

use model::Cell;
use model::sizes::CELL;
use netlist::cells::{Cells, Layout};

// Where a part stands: its own first memory, and in the whole the first memory, the part's start, its first delay cell and its first walk cell.
#[derive(Clone, Copy)]
pub struct Stand {
    pub own: u16,
    pub memory: u16,
    pub start: u16,
    pub delay: u16,
    pub walk: u16,
}

// What is known of a part's own netlist: its first memory, and how many delay cells and walk cells it has.
#[derive(Clone, Copy)]
pub struct Own {
    pub memory: u16,
    pub delays: u16,
    pub walk: u16,
}

// A place in the whole: a start wire, the next delay cell and the next walk cell. The compiler's place has the marks and the exits beside, which no
// moving touches.
#[derive(Clone, Copy)]
pub struct Spot {
    pub wire: u16,
    pub delay: u16,
    pub cell: u16,
}

// The new number of wire j; a number that no cell has stays.
pub fn new_number(at: Stand, j: u16) -> u16
    requires { Fits at }
    ensures { j ≤ 16384 → result ≡ moves at j }
{
    if 16384 < j {
        return j;
    }
    if j == 0 {
        return at.start;
    }
    if j < 3 {
        return j;
    }
    if j < at.own {
        return at.delay + (j - 3);
    }
    if j < at.own + 24 {
        return at.memory + (j - at.own);
    }
    at.walk + (j - (at.own + 24))
}

// A cell with its inputs renumbered.
fn rewired(c: Cell, at: Stand) -> Cell
    requires { Fits at × Low c }
    ensures { result ≡ rewired (moves at) c }
{
    let a = new_number(at, c.a);
    let b = new_number(at, c.b);
    netlist::moves::rewired(c, a, b)
}

// Puts n cells of a file, from cell k on, renumbered, into a list of cells, at byte i.
pub fn put_moved(cells: &mut [u8], i: usize, file: &[u8], k: usize, n: usize, at: Stand)
    requires { Room InFile file.now (k + n) × (i + 6 * n ≤ length cells.old) × Fits at × LowCells file.now (k + n) }
    ensures { cells.new ≡ sets cells.old i (cell_bytes (map (rewired (moves at)) (cells_at in_file file.now k n))) }
{
    let own = Cells {
        bytes: file,
        layout: Layout::InFile,
        next: k,
        end: k + n,
    };
    for (j, c) in own.enumerate() {
        let moved = rewired(c, at);
        netlist::cells::put_cell(cells, i + CELL * j, moved, 0);
    }
}

// Puts a part's delay cells and walk cells, moved, into the list of the whole's cells, where the first memory is `memory`. Answers the place behind
// them: the next part starts with this one's finish.
pub fn put_part(cells: &mut [u8], file: &[u8], own: Own, memory: u16, at: Spot) -> Spot
    requires { PartReady file.now own memory at (length cells.old) }
    ensures { (v : ℕ) (P : Code) → OwnOf v P file.now own → PartDone v memory P at cells.old cells.new result }
{
    let stand = Stand {
        own: own.memory,
        memory,
        start: at.wire,
        delay: at.delay,
        walk: at.cell,
    };
    let delay = at.delay as usize;
    let walk = at.cell as usize;
    let first = own.memory as usize;
    put_moved(cells, CELL * delay, file, 3, own.delays as usize, stand);
    put_moved(
        cells,
        CELL * walk,
        file,
        first + 24,
        own.walk as usize,
        stand,
    );
    let finish = word::get16(file, 4);
    let wire = new_number(stand, finish);
    Spot {
        wire,
        delay: at.delay + own.delays,
        cell: at.cell + own.walk,
    }
}
