// Functional runs: begin, continue, start and the full run of a netlist file whose last sixteen cells carry the last words.
// Each is the simulator's call in a mode of its own: the rule of those cells comes before the call's other checks, and the answer shows their words.
// The calls have no requires; their contracts are equations with model/FunctionalCalls.
#![tactic(auto)]

ghost use Rattle.model.specs.Refusals.{Accepted};
ghost use Rattle.std.specs.Prelude.{◌≡◌, ℕ, List, length};
ghost use Rattle.std.specs.Fn.{FnOnceReturnsAtMut};
ghost use Rattle.model.specs.declared.Answer.{Answer};
ghost use Rattle.model.specs.NetlistFile.{cells_of, last_words};
ghost use Rattle.model.specs.State.{now_at};
ghost use Rattle.model.specs.Calls.{verdict, Returned};
ghost use Rattle.model.specs.FunctionalCalls.{functionally, begin_functional_call, continue_functional_call, start_functional_call, run_functional_call};
ghost use Rattle.state.specs.Stands.{Runs};
ghost use Rattle.functional_runs.specs.Modes.{Ahead, Refuses, Answers, with_last, retold_as};

use model::{Answer, Checked, Format, Outcome};
use state::wires;

// Refusal 12 of the last sixteen cells, and what comes before it. Without it the simulator's call looks at the file, and no call looks twice.
fn check(netlist: &[u8]) -> Checked
    ensures { Ahead netlist.now result }
{
    if let Err(r) = netlist::check_last(netlist) {
        netlist::check_file(netlist)?;
        return Err(r);
    }
    Ok(())
}

// The words that the last sixteen cells show.
fn last_words(format: Format, netlist: &[u8], state: &[u8]) -> [u16; 16]
    requires { Runs format netlist.now state.now }
    ensures { result ≡ last_words (cells_of netlist.now) (now_at format state.now) 0 16 }
{
    let h = netlist::header::header_of(netlist);
    let first = netlist::rules::first_last(h.count);
    let mut words = [0; 16];
    for (x, word) in words.iter_mut().enumerate() {
        *word = wires::now_at(format, state, first + x);
    }
    words
}

// An answer with those words.
pub fn with_last(format: Format, netlist: &[u8], answer: Answer, state: &[u8]) -> Answer
    requires { Runs format netlist.now state.now }
    ensures { result ≡ with_last format netlist.now answer state.now }
{
    Answer {
        words: last_words(format, netlist, state),
        ..answer
    }
}

// What a call of the simulator answered, as a functional run tells it: a refusal stays as it is.
fn retold(format: Format, netlist: &[u8], answer: Answer, state: &[u8]) -> Answer
    requires { verdict answer.outcome ≡ Accepted → Runs format netlist.now state.now }
    ensures { result ≡ retold_as format netlist.now answer state.now }
{
    match answer.outcome {
        Outcome::Ended | Outcome::Open => with_last(format, netlist, answer, state),
        Outcome::Refused(_) => answer,
    }
}

// A call of the simulator in a functional run: the rule of the last sixteen cells comes before its checks, and what it answers is told with their words.
fn functionally<F: FnOnce(&mut [u8]) -> Answer>(
    format: Format,
    netlist: &[u8],
    state: &mut [u8],
    call: F,
) -> Answer
    requires can { F.IsAlwaysCallable call }
    requires sized { (a : Answer) (s : List ℕ) → FnOnceReturnsAtMut F.FnOnce call state.old a s → length s ≡ length state.old → verdict a.outcome ≡ Accepted → Runs format netlist.now s }
    ensures { (t : Returned Answer) → Refuses netlist.now state.old t → ((a : Answer) (s : List ℕ) → FnOnceReturnsAtMut F.FnOnce call state.old a s → Answers t a s) → Answers (functionally format netlist.now state.old t) result state.new }
{
    if let Err(r) = check(netlist) {
        return Answer::refused(r);
    }
    let answer = call(state);
    retold(format, netlist, answer, state)
}

// Evaluates instant 0: refusals 9 to 12, 27, 14.
pub fn begin(format: Format, netlist: &[u8], words: &[u8], state: &mut [u8]) -> Answer
    ensures answer { result ≡ (begin_functional_call format netlist.now words.now state.old).answer }
    ensures lent { state.new ≡ (begin_functional_call format netlist.now words.now state.old).lent }
{
    functionally(
        format,
        netlist,
        state,
        |lent| simulator::begin(format, netlist, words, lent),
    )
}

// Evaluates later instants, until the finish is high or n are done: refusals 9 to 12, 27, 14 to 16, 26.
pub fn continue_by(format: Format, netlist: &[u8], state: &mut [u8], n: u32) -> Answer
    ensures answer { result ≡ (continue_functional_call format netlist.now n state.old).answer }
    ensures lent { state.new ≡ (continue_functional_call format netlist.now n state.old).lent }
{
    functionally(
        format,
        netlist,
        state,
        |lent| simulator::continue_by(format, netlist, lent, n),
    )
}

// Evaluates one later instant, with a start pulse: refusals 9 to 12, 27, 14 to 16, 23.
pub fn start(format: Format, netlist: &[u8], state: &mut [u8]) -> Answer
    ensures answer { result ≡ (start_functional_call format netlist.now state.old).answer }
    ensures lent { state.new ≡ (start_functional_call format netlist.now state.old).lent }
{
    functionally(
        format,
        netlist,
        state,
        |lent| simulator::start(format, netlist, lent),
    )
}

// A full run: refusals 9 to 14.
pub fn run_netlist(netlist: &[u8], words: &[u8], budget: u32, state: &mut [u8]) -> Answer
    ensures answer { result ≡ (run_functional_call netlist.now words.now budget state.old).answer }
    ensures lent { state.new ≡ (run_functional_call netlist.now words.now budget state.old).lent }
{
    functionally(
        Format::Full,
        netlist,
        state,
        |lent| simulator::run_netlist(netlist, words, budget, lent),
    )
}
