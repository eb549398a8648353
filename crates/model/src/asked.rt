// What is asked of every full run, of a program or of a netlist, by the rules or by a circuit.
// The contract cites model/Calls.
ghost use Rattle.std.specs.Prelude.{◌≡◌, [], ◌∷◌, ◌≤◌, length};
ghost use Rattle.model.specs.Refusals.{refuse, refuse_if, first, Accepted};
ghost use Rattle.model.specs.Calls.{over_budget, short};

use crate::sizes::{LAST_INSTANT, START_WORDS};
use crate::{Checked, Refusal, refuse};

// Refusal 13 of a budget, and 14 of start words that are too short.
pub fn check_asked(budget: u32, words: &[u8]) -> Checked
    ensures checks { result ≡ first (over_budget budget ∷ short (length words.now) 544 ∷ []) }
    ensures enough { result ≡ Accepted → (budget ≤ 1000000) × (544 ≤ length words.now) }
{
    if LAST_INSTANT < budget {
        return refuse(13, 0);
    }
    if words.len() < START_WORDS {
        return refuse(14, 0);
    }
    Ok(())
}
