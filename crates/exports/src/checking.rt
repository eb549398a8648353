// Refusals 11 and 12 of a netlist, from a scan of its cells.
// A contract speaks of whatever cells the scan is of (specs/Looks).
ghost use Rattle.std.specs.Prelude.{◌≡◌, ℕ, ◌*◌, ◌^◌, ◌<◌, List, length, nat_le};
ghost use Rattle.model.specs.declared.Cell.{Cell};
ghost use Rattle.model.specs.Word.{pick};
ghost use Rattle.model.specs.NetlistFile.{cell_limit};
ghost use Rattle.model.specs.CellSlices.{check_cells_call};
ghost use Rattle.exports.specs.Looks.{Looked};

use model::sizes::MOST_CELLS;
use model::{Checked, refuse};
use netlist::rules::Scan;

// How many of n cells a check looks at: all, or, where there are too many, none, because 11 comes before what any cell is.
pub fn looked(n: usize) -> usize
    ensures { result ≡ pick (nat_le n cell_limit) n 0 }
{
    if n <= MOST_CELLS { n } else { 0 }
}

// Refusals 11 and 12.
pub fn checked(s: Scan) -> Checked
    requires { 6 * s.n < 2 ^ 63 }
    ensures { (cs : List Cell) (finish : ℕ) → Looked cs finish (length cs) s → result ≡ check_cells_call cs finish }
{
    let n = s.n;
    if netlist::blocks::count_wrong(netlist::blocks::blocks_for(n), n, s.finish) {
        return refuse(11, 0);
    }
    netlist::rules::told(s)
}
