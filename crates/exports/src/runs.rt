// The calls that take a state, in either format and of either kind of circuit: each is four exported calls, and a full run two.
// Each answers whether there was room for the reply; where there was none it did nothing.
ghost use Rattle.std.specs.Prelude.{◌≡◌, ℕ, List};
ghost use Rattle.model.specs.declared.Answer.{Answer};
ghost use Rattle.model.specs.declared.Format.{Format};
ghost use Rattle.model.specs.Calls.{Returned, begin_call, continue_call, start_call, run_netlist_call};
ghost use Rattle.model.specs.FunctionalCalls.{begin_functional_call, continue_functional_call, start_functional_call, run_functional_call};
ghost use Rattle.reply.specs.Replies.{answer_reply, replied, room_for, if_room};

use model::{Answer, Format};
use reply::Reply;

// A kind of circuit, by its calls that take a state. hub's Circuit is what a program is compiled to, and hub's own: here are four calls on a file.
pub trait Runs {
    ghost begun: { Format → List ℕ → List ℕ → List ℕ → Returned Answer };

    ghost continued: { Format → List ℕ → ℕ → List ℕ → Returned Answer };

    ghost started: { Format → List ℕ → List ℕ → Returned Answer };

    ghost ran: { List ℕ → List ℕ → ℕ → List ℕ → Returned Answer };

    fn begin(format: Format, netlist: &[u8], words: &[u8], state: &mut [u8]) -> Answer
        ensures answer { result ≡ (begun format netlist.now words.now state.old).answer }
        ensures lent { state.new ≡ (begun format netlist.now words.now state.old).lent };

    fn continue_by(format: Format, netlist: &[u8], state: &mut [u8], n: u32) -> Answer
        ensures answer { result ≡ (continued format netlist.now n state.old).answer }
        ensures lent { state.new ≡ (continued format netlist.now n state.old).lent };

    fn start(format: Format, netlist: &[u8], state: &mut [u8]) -> Answer
        ensures answer { result ≡ (started format netlist.now state.old).answer }
        ensures lent { state.new ≡ (started format netlist.now state.old).lent };

    fn run(netlist: &[u8], words: &[u8], budget: u32, state: &mut [u8]) -> Answer
        ensures answer { result ≡ (ran netlist.now words.now budget state.old).answer }
        ensures lent { state.new ≡ (ran netlist.now words.now budget state.old).lent };
}

pub struct Imperative;

impl Runs for Imperative {
    ghost begun = { begin_call };

    ghost continued = { continue_call };

    ghost started = { start_call };

    ghost ran = { run_netlist_call };

    fn begin(format: Format, netlist: &[u8], words: &[u8], state: &mut [u8]) -> Answer {
        hub::begin(format, netlist, words, state)
    }

    fn continue_by(format: Format, netlist: &[u8], state: &mut [u8], n: u32) -> Answer {
        hub::continue_by(format, netlist, state, n)
    }

    fn start(format: Format, netlist: &[u8], state: &mut [u8]) -> Answer {
        hub::start(format, netlist, state)
    }

    fn run(netlist: &[u8], words: &[u8], budget: u32, state: &mut [u8]) -> Answer {
        hub::run_netlist(netlist, words, budget, state)
    }
}

pub struct Functional;

impl Runs for Functional {
    ghost begun = { begin_functional_call };

    ghost continued = { continue_functional_call };

    ghost started = { start_functional_call };

    ghost ran = { run_functional_call };

    fn begin(format: Format, netlist: &[u8], words: &[u8], state: &mut [u8]) -> Answer {
        hub::begin_functional(format, netlist, words, state)
    }

    fn continue_by(format: Format, netlist: &[u8], state: &mut [u8], n: u32) -> Answer {
        hub::continue_functional(format, netlist, state, n)
    }

    fn start(format: Format, netlist: &[u8], state: &mut [u8]) -> Answer {
        hub::start_functional(format, netlist, state)
    }

    fn run(netlist: &[u8], words: &[u8], budget: u32, state: &mut [u8]) -> Answer {
        hub::run_functional(netlist, words, budget, state)
    }
}

pub fn begin<R: Runs>(
    format: Format,
    netlist: &[u8],
    words: &[u8],
    state: &mut [u8],
    reply: &mut [u8],
) -> bool
    ensures done { result ≡ room_for reply.old }
    ensures state { state.new ≡ if_room reply.old (R.begun format netlist.now words.now state.old).lent state.old }
    ensures reply { reply.new ≡ if_room reply.old (replied (answer_reply (R.begun format netlist.now words.now state.old).answer) reply.old) reply.old }
{
    if reply.len() < reply::LENGTH {
        return false;
    }
    let answer = R::begin(format, netlist, words, state);
    reply::put(reply, Reply::from(answer));
    true
}

pub fn start<R: Runs>(format: Format, netlist: &[u8], state: &mut [u8], reply: &mut [u8]) -> bool
    ensures done { result ≡ room_for reply.old }
    ensures state { state.new ≡ if_room reply.old (R.started format netlist.now state.old).lent state.old }
    ensures reply { reply.new ≡ if_room reply.old (replied (answer_reply (R.started format netlist.now state.old).answer) reply.old) reply.old }
{
    if reply.len() < reply::LENGTH {
        return false;
    }
    let answer = R::start(format, netlist, state);
    reply::put(reply, Reply::from(answer));
    true
}

pub fn continue_by<R: Runs>(
    format: Format,
    netlist: &[u8],
    state: &mut [u8],
    n: u32,
    reply: &mut [u8],
) -> bool
    ensures done { result ≡ room_for reply.old }
    ensures state { state.new ≡ if_room reply.old (R.continued format netlist.now n state.old).lent state.old }
    ensures reply { reply.new ≡ if_room reply.old (replied (answer_reply (R.continued format netlist.now n state.old).answer) reply.old) reply.old }
{
    if reply.len() < reply::LENGTH {
        return false;
    }
    let answer = R::continue_by(format, netlist, state, n);
    reply::put(reply, Reply::from(answer));
    true
}

pub fn run<R: Runs>(
    netlist: &[u8],
    words: &[u8],
    budget: u32,
    state: &mut [u8],
    reply: &mut [u8],
) -> bool
    ensures done { result ≡ room_for reply.old }
    ensures state { state.new ≡ if_room reply.old (R.ran netlist.now words.now budget state.old).lent state.old }
    ensures reply { reply.new ≡ if_room reply.old (replied (answer_reply (R.ran netlist.now words.now budget state.old).answer) reply.old) reply.old }
{
    if reply.len() < reply::LENGTH {
        return false;
    }
    let answer = R::run(netlist, words, budget, state);
    reply::put(reply, Reply::from(answer));
    true
}
