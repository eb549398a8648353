// Whether a file is that of a list of cells: what its header tells and its cells are compared, and an accepted file has nothing else.
// The contract is an equation with model/Text and model/NetlistFile.
ghost use Rattle.model.specs.Refusals.{Accepted};
ghost use Rattle.std.specs.Prelude.{◌≡◌, ◌<◌, ◌≤◌};
ghost use Rattle.model.specs.Text.{same};
ghost use Rattle.model.specs.NetlistFile.{cells_at, in_list, in_file, file_of, file_check};
ghost use Rattle.netlist.specs.Offsets.{Room};
ghost use Rattle.netlist.specs.Compared.{same_cells};

use crate::cells::Layout;
use crate::header::Header;
use model::sizes::CELL;

// Whether the first n cells of a file and of a list are the same. No zip with cells::Cells: a number finds the cell of the one, where two walks would have
// to be told to keep step.
fn same_cells(file: &[u8], cells: &[u8], n: usize) -> bool
    requires { Room Layout.InFile file.now n × Room Layout.InList cells.now n }
    ensures { result ≡ same_cells (cells_at in_file file.now 0 n) (cells_at in_list cells.now 0 n) }
{
    for (k, cell) in cells[..CELL * n].chunks_exact(CELL).enumerate() {
        let c = crate::cells::cell_at(file, Layout::InFile, k);
        let d = crate::cells::cell_from(cell, 0);
        if c != d {
            return false;
        }
    }
    true
}

// Whether an accepted file is that of n cells of a list, with this pulse length and this finish.
pub fn is_file_of(file: &[u8], cells: &[u8], n: usize, pulse: u8, finish: u16) -> bool
    requires { (file_check file.now ≡ Accepted) × Room Layout.InList cells.now n × (0 < n) × (1 ≤ pulse) }
    ensures { result ≡ same file.now (file_of pulse (cells_at in_list cells.now 0 n) finish) }
{
    let asked = Header {
        count: n,
        finish: finish as usize,
        pulse,
    };
    if crate::header::header_of(file) != asked {
        return false;
    }
    same_cells(file, cells, n)
}
