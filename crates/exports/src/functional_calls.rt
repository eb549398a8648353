// The calls on bytes for functional circuits, as those in `calls`. Before a program stands a flag that tells whether a table of operator times is given,
// and the table: no number of procedures, and no pulse length.
ghost use Rattle.std.specs.Prelude.{◌≡◌};
ghost use Rattle.model.specs.TimeTables.{given_if, beside, load};
ghost use Rattle.model.specs.FunctionalCalls.{check_functional_call, compile_functional_call, reference_functional_call, begin_functional_call, continue_functional_call, start_functional_call, run_functional_call, run_functional_program_call};
ghost use Rattle.model.specs.declared.Format.TheVariants.{Full, Compact};
ghost use Rattle.reply.specs.Replies.{checked_reply, written_reply, answer_reply, replied, room_for, if_room};

use crate::runs;
use crate::runs::Functional;
use model::Format;
use reply::Reply;

pub fn hub_check_functional(timed: bool, table: &[u8], program: &[u8], reply: &mut [u8]) -> bool
    ensures done { result ≡ room_for reply.old }
    ensures reply { reply.new ≡ if_room reply.old (replied (checked_reply (check_functional_call (load (beside (given_if timed table.now) 0 1)) program.now)) reply.old) reply.old }
{
    if reply.len() < reply::LENGTH {
        return false;
    }
    let options = hub::load_if(timed, table, 0, 1);
    let answer = hub::check_functional(options, program);
    reply::put(reply, Reply::from(answer));
    true
}

pub fn hub_compile_functional(
    timed: bool,
    table: &[u8],
    program: &[u8],
    file: &mut [u8],
    reply: &mut [u8],
) -> bool
    ensures done { result ≡ room_for reply.old }
    ensures file { file.new ≡ if_room reply.old (compile_functional_call (load (beside (given_if timed table.now) 0 1)) program.now file.old).lent file.old }
    ensures reply { reply.new ≡ if_room reply.old (replied (written_reply (compile_functional_call (load (beside (given_if timed table.now) 0 1)) program.now file.old).answer) reply.old) reply.old }
{
    if reply.len() < reply::LENGTH {
        return false;
    }
    let options = hub::load_if(timed, table, 0, 1);
    let answer = hub::compile_functional(options, program, file);
    reply::put(reply, Reply::from(answer));
    true
}

pub fn hub_reference_functional(
    timed: bool,
    table: &[u8],
    program: &[u8],
    words: &[u8],
    budget: u32,
    reply: &mut [u8],
) -> bool
    ensures done { result ≡ room_for reply.old }
    ensures reply { reply.new ≡ if_room reply.old (replied (answer_reply (reference_functional_call (load (beside (given_if timed table.now) 0 1)) program.now words.now budget)) reply.old) reply.old }
{
    if reply.len() < reply::LENGTH {
        return false;
    }
    let options = hub::load_if(timed, table, 0, 1);
    let answer = hub::reference_functional(options, program, words, budget);
    reply::put(reply, Reply::from(answer));
    true
}

pub fn hub_begin_functional(
    netlist: &[u8],
    words: &[u8],
    state: &mut [u8],
    reply: &mut [u8],
) -> bool
    ensures done { result ≡ room_for reply.old }
    ensures state { state.new ≡ if_room reply.old (begin_functional_call Full netlist.now words.now state.old).lent state.old }
    ensures reply { reply.new ≡ if_room reply.old (replied (answer_reply (begin_functional_call Full netlist.now words.now state.old).answer) reply.old) reply.old }
{
    runs::begin::<Functional>(Format::Full, netlist, words, state, reply)
}

pub fn hub_begin_functional_compact(
    netlist: &[u8],
    words: &[u8],
    state: &mut [u8],
    reply: &mut [u8],
) -> bool
    ensures done { result ≡ room_for reply.old }
    ensures state { state.new ≡ if_room reply.old (begin_functional_call Compact netlist.now words.now state.old).lent state.old }
    ensures reply { reply.new ≡ if_room reply.old (replied (answer_reply (begin_functional_call Compact netlist.now words.now state.old).answer) reply.old) reply.old }
{
    runs::begin::<Functional>(Format::Compact, netlist, words, state, reply)
}

pub fn hub_continue_functional(netlist: &[u8], state: &mut [u8], n: u32, reply: &mut [u8]) -> bool
    ensures done { result ≡ room_for reply.old }
    ensures state { state.new ≡ if_room reply.old (continue_functional_call Full netlist.now n state.old).lent state.old }
    ensures reply { reply.new ≡ if_room reply.old (replied (answer_reply (continue_functional_call Full netlist.now n state.old).answer) reply.old) reply.old }
{
    runs::continue_by::<Functional>(Format::Full, netlist, state, n, reply)
}

pub fn hub_continue_functional_compact(
    netlist: &[u8],
    state: &mut [u8],
    n: u32,
    reply: &mut [u8],
) -> bool
    ensures done { result ≡ room_for reply.old }
    ensures state { state.new ≡ if_room reply.old (continue_functional_call Compact netlist.now n state.old).lent state.old }
    ensures reply { reply.new ≡ if_room reply.old (replied (answer_reply (continue_functional_call Compact netlist.now n state.old).answer) reply.old) reply.old }
{
    runs::continue_by::<Functional>(Format::Compact, netlist, state, n, reply)
}

pub fn hub_start_functional(netlist: &[u8], state: &mut [u8], reply: &mut [u8]) -> bool
    ensures done { result ≡ room_for reply.old }
    ensures state { state.new ≡ if_room reply.old (start_functional_call Full netlist.now state.old).lent state.old }
    ensures reply { reply.new ≡ if_room reply.old (replied (answer_reply (start_functional_call Full netlist.now state.old).answer) reply.old) reply.old }
{
    runs::start::<Functional>(Format::Full, netlist, state, reply)
}

pub fn hub_start_functional_compact(netlist: &[u8], state: &mut [u8], reply: &mut [u8]) -> bool
    ensures done { result ≡ room_for reply.old }
    ensures state { state.new ≡ if_room reply.old (start_functional_call Compact netlist.now state.old).lent state.old }
    ensures reply { reply.new ≡ if_room reply.old (replied (answer_reply (start_functional_call Compact netlist.now state.old).answer) reply.old) reply.old }
{
    runs::start::<Functional>(Format::Compact, netlist, state, reply)
}

pub fn hub_run_functional(
    netlist: &[u8],
    words: &[u8],
    budget: u32,
    state: &mut [u8],
    reply: &mut [u8],
) -> bool
    ensures done { result ≡ room_for reply.old }
    ensures state { state.new ≡ if_room reply.old (run_functional_call netlist.now words.now budget state.old).lent state.old }
    ensures reply { reply.new ≡ if_room reply.old (replied (answer_reply (run_functional_call netlist.now words.now budget state.old).answer) reply.old) reply.old }
{
    runs::run::<Functional>(netlist, words, budget, state, reply)
}

pub fn hub_run_functional_program(
    timed: bool,
    table: &[u8],
    program: &[u8],
    words: &[u8],
    budget: u32,
    netlist: &mut [u8],
    state: &mut [u8],
    reply: &mut [u8],
) -> bool
    ensures done { result ≡ room_for reply.old }
    ensures netlist { netlist.new ≡ if_room reply.old (run_functional_program_call (load (beside (given_if timed table.now) 0 1)) program.now words.now budget netlist.old state.old).netlist netlist.old }
    ensures state { state.new ≡ if_room reply.old (run_functional_program_call (load (beside (given_if timed table.now) 0 1)) program.now words.now budget netlist.old state.old).state state.old }
    ensures reply { reply.new ≡ if_room reply.old (replied (answer_reply (run_functional_program_call (load (beside (given_if timed table.now) 0 1)) program.now words.now budget netlist.old state.old).answer) reply.old) reply.old }
{
    if reply.len() < reply::LENGTH {
        return false;
    }
    let options = hub::load_if(timed, table, 0, 1);
    let answer = hub::run_functional_program(options, program, words, budget, netlist, state);
    reply::put(reply, Reply::from(answer));
    true
}
