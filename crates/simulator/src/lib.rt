// The simulator: begin, continue, start and the full run of a netlist file, on the published bytes of a state, full or compact.
// The calls have no requires. They check first and write afterwards; their contracts are equations with model/Calls.
// An answer is a struct, by value, and no Result: so each call tells its refusal by hand.
#![tactic(auto)]

ghost use Rattle.std.specs.Prelude.{◌≡◌};
ghost use Rattle.model.specs.Calls.{refused_answer, begin_call, continue_call, start_call, run_netlist_call};

pub mod source; // what a run is of
pub mod keeping; // an instant taken back
pub mod instant; // one further instant
pub mod beginning; // instant 0
pub mod runs; // runs of a file that is accepted
pub mod checks; // refusals 9 to 16, 27 and 23 in their order

use model::{Answer, Checked, Format, Outcome, Refusal};

// Evaluates instant 0: refusals 9 to 12, 27, 14.
pub fn begin(format: Format, netlist: &[u8], words: &[u8], state: &mut [u8]) -> Answer
    ensures answer { result ≡ (begin_call format netlist.now words.now state.old).answer }
    ensures lent { state.new ≡ (begin_call format netlist.now words.now state.old).lent }
{
    if let Err(r) = checks::check_begin(format, netlist, words, state) {
        return Answer::refused(r);
    }
    runs::begin(format, netlist, words, state)
}

// Evaluates later instants, until the finish is high or n are done: refusals 9 to 12, 27, 14 to 16, 26.
pub fn continue_by(format: Format, netlist: &[u8], state: &mut [u8], n: u32) -> Answer
    ensures answer { result ≡ (continue_call format netlist.now n state.old).answer }
    ensures lent { state.new ≡ (continue_call format netlist.now n state.old).lent }
{
    if let Err(r) = checks::check_continue(format, netlist, n, state) {
        return Answer::refused(r);
    }
    runs::continue_by(format, netlist, false, state, n)
}

// Evaluates one later instant, with a start pulse: refusals 9 to 12, 27, 14 to 16, 23.
pub fn start(format: Format, netlist: &[u8], state: &mut [u8]) -> Answer
    ensures answer { result ≡ (start_call format netlist.now state.old).answer }
    ensures lent { state.new ≡ (start_call format netlist.now state.old).lent }
{
    if let Err(r) = checks::check_start(format, netlist, state) {
        return Answer::refused(r);
    }
    runs::continue_by(format, netlist, true, state, 1)
}

// A full run: refusals 9 to 14.
pub fn run_netlist(netlist: &[u8], words: &[u8], budget: u32, state: &mut [u8]) -> Answer
    ensures answer { result ≡ (run_netlist_call netlist.now words.now budget state.old).answer }
    ensures lent { state.new ≡ (run_netlist_call netlist.now words.now budget state.old).lent }
{
    if let Err(r) = checks::check_run(netlist, words, budget, state) {
        return Answer::refused(r);
    }
    runs::full_run(netlist, words, budget, state)
}
