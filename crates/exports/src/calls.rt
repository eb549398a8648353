// The calls on bytes: numbers and byte slices in, the answer as 48 bytes in a lent buffer (reply/specs/Replies).
// Each answers whether there was room for the reply; where there was none it did nothing. Those on a netlist's state, which are begin, continue, start and
// run_netlist, ask that in `runs`, once for each of the four. Each other one asks it itself before its call, which writes into lent lists: of a closure that
// made the call a helper would know the result, and not what it leaves in the lists; and one that took these, too, would stand here for none, one and two of
// them.
// Before a program or a text stands what is given beside it: a flag that tells whether a table of operator times is given, the table, the number of
// procedures, and the pulse length, which a slow run has not. Flags, lengths in a list of their own and so many parameters are the C interface's (exports_c).
ghost use Rattle.std.specs.Prelude.{◌≡◌};
ghost use Rattle.model.specs.TimeTables.{given_if, beside, load};
ghost use Rattle.model.specs.Calls.{check_call, compile_call, write_call, read_call, begin_call, continue_call, start_call, run_netlist_call, run_program_call, reference_call};
ghost use Rattle.model.specs.Gates.{slow_run_call};
ghost use Rattle.model.specs.TextCalls.{read_text_call, compile_text_call, run_text_call};
ghost use Rattle.model.specs.PartCalls.{parts_in, join_call};
ghost use Rattle.model.specs.declared.Format.TheVariants.{Full, Compact};
ghost use Rattle.reply.specs.Replies.{checked_reply, written_reply, answer_reply, replied, room_for, if_room};

use crate::runs;
use crate::runs::Imperative;
use model::Format;
use reply::Reply;

pub fn hub_check(
    timed: bool,
    table: &[u8],
    procedures: usize,
    pulse: u8,
    program: &[u8],
    reply: &mut [u8],
) -> bool
    ensures done { result ≡ room_for reply.old }
    ensures reply { reply.new ≡ if_room reply.old (replied (checked_reply (check_call (load (beside (given_if timed table.now) procedures pulse)) program.now)) reply.old) reply.old }
{
    if reply.len() < reply::LENGTH {
        return false;
    }
    let options = hub::load_if(timed, table, procedures, pulse);
    let answer = hub::check(options, program);
    reply::put(reply, Reply::from(answer));
    true
}

pub fn hub_compile(
    timed: bool,
    table: &[u8],
    procedures: usize,
    pulse: u8,
    program: &[u8],
    file: &mut [u8],
    reply: &mut [u8],
) -> bool
    ensures done { result ≡ room_for reply.old }
    ensures file { file.new ≡ if_room reply.old (compile_call (load (beside (given_if timed table.now) procedures pulse)) program.now file.old).lent file.old }
    ensures reply { reply.new ≡ if_room reply.old (replied (written_reply (compile_call (load (beside (given_if timed table.now) procedures pulse)) program.now file.old).answer) reply.old) reply.old }
{
    if reply.len() < reply::LENGTH {
        return false;
    }
    let options = hub::load_if(timed, table, procedures, pulse);
    let answer = hub::compile(options, program, file);
    reply::put(reply, Reply::from(answer));
    true
}

// Parts stand one after another in the lent bytes, each a program and its netlist file; the lengths are those of these, in that order, and each part has
// its pulse length.
pub fn hub_join(
    timed: bool,
    table: &[u8],
    lengths: &[u32],
    pulses: &[u8],
    parts: &[u8],
    file: &mut [u8],
    reply: &mut [u8],
) -> bool
    ensures done { result ≡ room_for reply.old }
    ensures file { file.new ≡ if_room reply.old (join_call (load (beside (given_if timed table.now) 0 1)) (parts_in lengths.now pulses.now parts.now) file.old).lent file.old }
    ensures reply { reply.new ≡ if_room reply.old (replied (written_reply (join_call (load (beside (given_if timed table.now) 0 1)) (parts_in lengths.now pulses.now parts.now) file.old).answer) reply.old) reply.old }
{
    if reply.len() < reply::LENGTH {
        return false;
    }
    let options = hub::load_if(timed, table, 0, 1);
    let answer = hub::join(options, lengths, pulses, parts, file);
    reply::put(reply, Reply::from(answer));
    true
}

pub fn hub_write(pulse: u8, cells: &[u8], finish: u16, file: &mut [u8], reply: &mut [u8]) -> bool
    ensures done { result ≡ room_for reply.old }
    ensures file { file.new ≡ if_room reply.old (write_call pulse cells.now finish file.old).lent file.old }
    ensures reply { reply.new ≡ if_room reply.old (replied (written_reply (write_call pulse cells.now finish file.old).answer) reply.old) reply.old }
{
    if reply.len() < reply::LENGTH {
        return false;
    }
    let answer = hub::write_netlist(pulse, cells, finish, file);
    reply::put(reply, Reply::from(answer));
    true
}

pub fn hub_read(file: &[u8], cells: &mut [u8], reply: &mut [u8]) -> bool
    ensures done { result ≡ room_for reply.old }
    ensures cells { cells.new ≡ if_room reply.old (read_call file.now cells.old).lent cells.old }
    ensures reply { reply.new ≡ if_room reply.old (replied (written_reply (read_call file.now cells.old).answer) reply.old) reply.old }
{
    if reply.len() < reply::LENGTH {
        return false;
    }
    let answer = hub::read_netlist(file, cells);
    reply::put(reply, Reply::from(answer));
    true
}

pub fn hub_begin(netlist: &[u8], words: &[u8], state: &mut [u8], reply: &mut [u8]) -> bool
    ensures done { result ≡ room_for reply.old }
    ensures state { state.new ≡ if_room reply.old (begin_call Full netlist.now words.now state.old).lent state.old }
    ensures reply { reply.new ≡ if_room reply.old (replied (answer_reply (begin_call Full netlist.now words.now state.old).answer) reply.old) reply.old }
{
    runs::begin::<Imperative>(Format::Full, netlist, words, state, reply)
}

pub fn hub_begin_compact(netlist: &[u8], words: &[u8], state: &mut [u8], reply: &mut [u8]) -> bool
    ensures done { result ≡ room_for reply.old }
    ensures state { state.new ≡ if_room reply.old (begin_call Compact netlist.now words.now state.old).lent state.old }
    ensures reply { reply.new ≡ if_room reply.old (replied (answer_reply (begin_call Compact netlist.now words.now state.old).answer) reply.old) reply.old }
{
    runs::begin::<Imperative>(Format::Compact, netlist, words, state, reply)
}

pub fn hub_continue(netlist: &[u8], state: &mut [u8], n: u32, reply: &mut [u8]) -> bool
    ensures done { result ≡ room_for reply.old }
    ensures state { state.new ≡ if_room reply.old (continue_call Full netlist.now n state.old).lent state.old }
    ensures reply { reply.new ≡ if_room reply.old (replied (answer_reply (continue_call Full netlist.now n state.old).answer) reply.old) reply.old }
{
    runs::continue_by::<Imperative>(Format::Full, netlist, state, n, reply)
}

pub fn hub_continue_compact(netlist: &[u8], state: &mut [u8], n: u32, reply: &mut [u8]) -> bool
    ensures done { result ≡ room_for reply.old }
    ensures state { state.new ≡ if_room reply.old (continue_call Compact netlist.now n state.old).lent state.old }
    ensures reply { reply.new ≡ if_room reply.old (replied (answer_reply (continue_call Compact netlist.now n state.old).answer) reply.old) reply.old }
{
    runs::continue_by::<Imperative>(Format::Compact, netlist, state, n, reply)
}

pub fn hub_start(netlist: &[u8], state: &mut [u8], reply: &mut [u8]) -> bool
    ensures done { result ≡ room_for reply.old }
    ensures state { state.new ≡ if_room reply.old (start_call Full netlist.now state.old).lent state.old }
    ensures reply { reply.new ≡ if_room reply.old (replied (answer_reply (start_call Full netlist.now state.old).answer) reply.old) reply.old }
{
    runs::start::<Imperative>(Format::Full, netlist, state, reply)
}

pub fn hub_start_compact(netlist: &[u8], state: &mut [u8], reply: &mut [u8]) -> bool
    ensures done { result ≡ room_for reply.old }
    ensures state { state.new ≡ if_room reply.old (start_call Compact netlist.now state.old).lent state.old }
    ensures reply { reply.new ≡ if_room reply.old (replied (answer_reply (start_call Compact netlist.now state.old).answer) reply.old) reply.old }
{
    runs::start::<Imperative>(Format::Compact, netlist, state, reply)
}

pub fn hub_run_netlist(
    netlist: &[u8],
    words: &[u8],
    budget: u32,
    state: &mut [u8],
    reply: &mut [u8],
) -> bool
    ensures done { result ≡ room_for reply.old }
    ensures state { state.new ≡ if_room reply.old (run_netlist_call netlist.now words.now budget state.old).lent state.old }
    ensures reply { reply.new ≡ if_room reply.old (replied (answer_reply (run_netlist_call netlist.now words.now budget state.old).answer) reply.old) reply.old }
{
    runs::run::<Imperative>(netlist, words, budget, state, reply)
}

pub fn hub_run_program(
    timed: bool,
    table: &[u8],
    procedures: usize,
    pulse: u8,
    program: &[u8],
    words: &[u8],
    budget: u32,
    netlist: &mut [u8],
    state: &mut [u8],
    reply: &mut [u8],
) -> bool
    ensures done { result ≡ room_for reply.old }
    ensures netlist { netlist.new ≡ if_room reply.old (run_program_call (load (beside (given_if timed table.now) procedures pulse)) program.now words.now budget netlist.old state.old).netlist netlist.old }
    ensures state { state.new ≡ if_room reply.old (run_program_call (load (beside (given_if timed table.now) procedures pulse)) program.now words.now budget netlist.old state.old).state state.old }
    ensures reply { reply.new ≡ if_room reply.old (replied (answer_reply (run_program_call (load (beside (given_if timed table.now) procedures pulse)) program.now words.now budget netlist.old state.old).answer) reply.old) reply.old }
{
    if reply.len() < reply::LENGTH {
        return false;
    }
    let options = hub::load_if(timed, table, procedures, pulse);
    let answer = hub::run_program(options, program, words, budget, netlist, state);
    reply::put(reply, Reply::from(answer));
    true
}

pub fn hub_slow_run(
    timed: bool,
    table: &[u8],
    procedures: usize,
    program: &[u8],
    words: &[u8],
    budget: u32,
    values: &mut [u8],
    work: &mut [u8],
    reply: &mut [u8],
) -> bool
    ensures done { result ≡ room_for reply.old }
    ensures values { values.new ≡ if_room reply.old (slow_run_call (load (beside (given_if timed table.now) procedures 1)) program.now words.now budget values.old work.old).values values.old }
    ensures work { work.new ≡ if_room reply.old (slow_run_call (load (beside (given_if timed table.now) procedures 1)) program.now words.now budget values.old work.old).work work.old }
    ensures reply { reply.new ≡ if_room reply.old (replied (answer_reply (slow_run_call (load (beside (given_if timed table.now) procedures 1)) program.now words.now budget values.old work.old).answer) reply.old) reply.old }
{
    if reply.len() < reply::LENGTH {
        return false;
    }
    let options = hub::load_if(timed, table, procedures, 1);
    let answer = hub::slow_run(options, program, words, budget, values, work);
    reply::put(reply, Reply::from(answer));
    true
}

pub fn hub_reference(
    timed: bool,
    table: &[u8],
    procedures: usize,
    pulse: u8,
    program: &[u8],
    words: &[u8],
    budget: u32,
    reply: &mut [u8],
) -> bool
    ensures done { result ≡ room_for reply.old }
    ensures reply { reply.new ≡ if_room reply.old (replied (answer_reply (reference_call (load (beside (given_if timed table.now) procedures pulse)) program.now words.now budget)) reply.old) reply.old }
{
    if reply.len() < reply::LENGTH {
        return false;
    }
    let options = hub::load_if(timed, table, procedures, pulse);
    let answer = hub::reference_run(options, program, words, budget);
    reply::put(reply, Reply::from(answer));
    true
}

pub fn hub_read_text(
    timed: bool,
    table: &[u8],
    procedures: usize,
    pulse: u8,
    source: &[u8],
    program: &mut [u8],
    reply: &mut [u8],
) -> bool
    ensures done { result ≡ room_for reply.old }
    ensures program { program.new ≡ if_room reply.old (read_text_call (load (beside (given_if timed table.now) procedures pulse)) source.now program.old).lent program.old }
    ensures reply { reply.new ≡ if_room reply.old (replied (written_reply (read_text_call (load (beside (given_if timed table.now) procedures pulse)) source.now program.old).answer) reply.old) reply.old }
{
    if reply.len() < reply::LENGTH {
        return false;
    }
    let options = hub::load_if(timed, table, procedures, pulse);
    let answer = hub::read_text(options, source, program);
    reply::put(reply, Reply::from(answer));
    true
}

pub fn hub_compile_text(
    timed: bool,
    table: &[u8],
    procedures: usize,
    pulse: u8,
    source: &[u8],
    file: &mut [u8],
    reply: &mut [u8],
) -> bool
    ensures done { result ≡ room_for reply.old }
    ensures file { file.new ≡ if_room reply.old (compile_text_call (load (beside (given_if timed table.now) procedures pulse)) source.now file.old).lent file.old }
    ensures reply { reply.new ≡ if_room reply.old (replied (written_reply (compile_text_call (load (beside (given_if timed table.now) procedures pulse)) source.now file.old).answer) reply.old) reply.old }
{
    if reply.len() < reply::LENGTH {
        return false;
    }
    let options = hub::load_if(timed, table, procedures, pulse);
    let answer = hub::compile_text(options, source, file);
    reply::put(reply, Reply::from(answer));
    true
}

pub fn hub_run_text(
    timed: bool,
    table: &[u8],
    procedures: usize,
    pulse: u8,
    source: &[u8],
    words: &[u8],
    budget: u32,
    netlist: &mut [u8],
    state: &mut [u8],
    reply: &mut [u8],
) -> bool
    ensures done { result ≡ room_for reply.old }
    ensures netlist { netlist.new ≡ if_room reply.old (run_text_call (load (beside (given_if timed table.now) procedures pulse)) source.now words.now budget netlist.old state.old).netlist netlist.old }
    ensures state { state.new ≡ if_room reply.old (run_text_call (load (beside (given_if timed table.now) procedures pulse)) source.now words.now budget netlist.old state.old).state state.old }
    ensures reply { reply.new ≡ if_room reply.old (replied (answer_reply (run_text_call (load (beside (given_if timed table.now) procedures pulse)) source.now words.now budget netlist.old state.old).answer) reply.old) reply.old }
{
    if reply.len() < reply::LENGTH {
        return false;
    }
    let options = hub::load_if(timed, table, procedures, pulse);
    let answer = hub::run_text(options, source, words, budget, netlist, state);
    reply::put(reply, Reply::from(answer));
    true
}
