// What writing a netlist answers, from a scan of its cells.
// The contract speaks of whatever cells the scan is of (specs/Looks).
ghost use Rattle.std.specs.Prelude.{◌≡◌, ℕ, ◌*◌, ◌^◌, ◌<◌, List, length};
ghost use Rattle.model.specs.declared.Cell.{Cell};
ghost use Rattle.model.specs.CellSlices.{write_cells_call};
ghost use Rattle.exports.specs.Looks.{Looked};

use model::sizes::BLOCK;
use model::{Refusal, Written, refuse};
use netlist::rules::Scan;

// Refusals 27, 11, 12, 14, for a file with so much room.
pub fn told(pulse: u8, s: Scan, finish: u16, room: usize) -> Result<Written, Refusal>
    requires { 6 * s.n < 2 ^ 63 }
    ensures { (cs : List Cell) (lent : List ℕ) → Looked cs finish (length cs) s → length lent ≡ room → result ≡ (write_cells_call pulse cs finish lent).answer }
{
    if netlist::blocks::pulse_wrong(u16::from(pulse)) {
        return refuse(27, 0);
    }
    crate::checking::checked(s)?;
    let count = BLOCK * netlist::blocks::blocks_for(s.n);
    if room < count {
        return refuse(14, 0);
    }
    Ok(Written { count, finish })
}
