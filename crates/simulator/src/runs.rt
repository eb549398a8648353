// Runs of a netlist file that is accepted, on a state of its size.
ghost use Rattle.model.specs.Refusals.{Accepted};
ghost use Rattle.std.specs.Prelude.{◌≡◌, ◌+◌, ◌≤◌, length};
ghost use Rattle.model.specs.declared.Format.TheVariants.{Full, Compact};
ghost use Rattle.model.specs.NetlistFile.{cells_of, finish_of, net_of};
ghost use Rattle.model.specs.State.{instant_of, begin_state, words_in};
ghost use Rattle.model.specs.Calls.{word_at, shows, full_state, full_count};
ghost use Rattle.state.specs.Stands.{Runs, Ready};
ghost use Rattle.simulator.specs.Fits.{Fits, Spares, Continues};
ghost use Rattle.simulator.specs.Keeping.{Roomy};
ghost use Rattle.simulator.specs.Levels.{continued_with, told};

use crate::keeping::KEPT;
use crate::source::Source;
use crate::{beginning, instant, keeping};
use model::sizes::{BLOCK_HEADER, COMPACT_CELL, ELEMENTS, STATE_HEADER};
use model::{Answer, Checked, Format, Outcome};
use netlist::header;
use netlist::header::Header;
use state::wires;

// The most cells of a netlist whose compact state is kept whole during a continuing, and the bytes of their state.
const FEW: usize = 1024;

const WHOLE: usize = STATE_HEADER + FEW * COMPACT_CELL + ELEMENTS;

// How a continuing went: whether 26 ended it, and how many instants it evaluated, which is told either way, as the model's `continued` has both.
#[derive(Clone, Copy)]
pub struct Went {
    pub checked: Checked,
    pub count: u32,
}

// Continuing -----------------------------------------------------------------------------------------------------------------------------

// Further instants, each with a start pulse or each without, until the finish is high or the budget is used; counts those that it
// evaluates. Where 26 ends it, the state is at the last good instant if there is room to keep what an instant overwrites, and else at no instant.
// The one caller of `step`, so that a step is compiled into its loop.
fn continue_state(
    source: &Source<'_>,
    starts: bool,
    state: &mut [u8],
    budget: u32,
    kept: &mut [u8],
) -> Went
    requires { Continues source.now.format source.now.file.now source.now.h budget state.old }
    ensures check { result.checked ≡ (continued_with source.now.format (net_of source.now.file.now) starts (finish_of source.now.file.now) budget state.old).check }
    ensures count { result.count ≡ (continued_with source.now.format (net_of source.now.file.now) starts (finish_of source.now.file.now) budget state.old).count }
    ensures state { result.checked ≡ Accepted → state.new ≡ (continued_with source.now.format (net_of source.now.file.now) starts (finish_of source.now.file.now) budget state.old).state }
    ensures spares { Spares source.now.format source.now.h.count state.old state.new }
    ensures back { Roomy kept.old → state.new ≡ (continued_with source.now.format (net_of source.now.file.now) starts (finish_of source.now.file.now) budget state.old).state }
{
    for count in 0..budget {
        if let Err(r) = instant::step(source, starts, state, kept) {
            return Went {
                checked: Err(r),
                count,
            };
        }
        if wires::is_high(source.format, state, source.h.finish) {
            return Went {
                checked: Ok(()),
                count: count + 1,
            };
        }
    }
    Went {
        checked: Ok(()),
        count: budget,
    }
}

// The same on a compact state of few cells, which is left at the last good instant: where 26 ends it, the state is put back as it was, and its good instants
// are evaluated again. So no instant costs anything.
fn continue_again(file: &[u8], h: Header, starts: bool, state: &mut [u8], budget: u32) -> Went
    requires { Continues Compact file.now h budget state.old × (h.count ≤ 1024) }
    ensures check { result.checked ≡ (continued_with Compact (net_of file.now) starts (finish_of file.now) budget state.old).check }
    ensures count { result.count ≡ (continued_with Compact (net_of file.now) starts (finish_of file.now) budget state.old).count }
    ensures state { state.new ≡ (continued_with Compact (net_of file.now) starts (finish_of file.now) budget state.old).state }
{
    let mut none = [0u8; 0];
    let mut whole = [0u8; WHOLE];
    let size = wires::base(Format::Compact, h.count) + ELEMENTS;
    keeping::copy(&mut whole, 0, state, 0, size);
    let source = Source {
        format: Format::Compact,
        file,
        h,
    };
    let went = continue_state(&source, starts, state, budget, &mut none);
    if went.checked.is_err() {
        keeping::copy(state, 0, &whole, 0, size);
        continue_state(&source, starts, state, went.count, &mut none);
    }
    went
}

// The same on any compact state.
fn continue_compact(file: &[u8], h: Header, starts: bool, state: &mut [u8], budget: u32) -> Went
    requires { Continues Compact file.now h budget state.old }
    ensures check { result.checked ≡ (continued_with Compact (net_of file.now) starts (finish_of file.now) budget state.old).check }
    ensures count { result.count ≡ (continued_with Compact (net_of file.now) starts (finish_of file.now) budget state.old).count }
    ensures state { state.new ≡ (continued_with Compact (net_of file.now) starts (finish_of file.now) budget state.old).state }
{
    if h.count <= FEW {
        return continue_again(file, h, starts, state, budget);
    }
    let mut kept = [0u8; KEPT];
    let source = Source {
        format: Format::Compact,
        file,
        h,
    };
    continue_state(&source, starts, state, budget, &mut kept)
}

// The same in either format; 26 never ends it on a full state.
fn continue_in(source: &Source<'_>, starts: bool, state: &mut [u8], budget: u32) -> Went
    requires { Continues source.now.format source.now.file.now source.now.h budget state.old }
    ensures check { result.checked ≡ (continued_with source.now.format (net_of source.now.file.now) starts (finish_of source.now.file.now) budget state.old).check }
    ensures count { result.count ≡ (continued_with source.now.format (net_of source.now.file.now) starts (finish_of source.now.file.now) budget state.old).count }
    ensures state { state.new ≡ (continued_with source.now.format (net_of source.now.file.now) starts (finish_of source.now.file.now) budget state.old).state }
{
    match source.format {
        Format::Full => {
            let mut none = [0u8; 0];
            continue_state(source, starts, state, budget, &mut none)
        }
        Format::Compact => continue_compact(source.file, source.h, starts, state, budget),
    }
}

// Answers --------------------------------------------------------------------------------------------------------------------------------

// The values of the sixteen memories. j counts the memories, and no turn of the loop; k and `at` are as in crate::instant. Crate slow's function of this name
// reads a list of cells and rings, and all that the two share is what is done at a memory.
fn words_in(source: &Source<'_>, state: &[u8]) -> [u16; 16]
    requires { Fits source.now.format source.now.file.now source.now.h state.now }
    ensures { result ≡ words_in source.now.format (cells_of source.now.file.now) 0 state.now }
{
    let mut words = [0; 16];
    let mut j = 0;
    let mut at = BLOCK_HEADER;
    for k in 0..source.h.count {
        let c = netlist::cells::cell_from(source.file, at);
        let v = wires::now_at(source.format, state, k);
        at = netlist::cells::next_offset(at);
        if c.kind == 40 {
            words[j] = v;
            j += 1;
        }
    }
    words
}

// What a state shows after a call that evaluated so many instants.
fn shows(source: &Source<'_>, state: &[u8], count: u32) -> Answer
    requires { Fits source.now.format source.now.file.now source.now.h state.now }
    ensures { result ≡ shows source.now.format source.now.file.now state.now count }
{
    let words = words_in(source, state);
    let instant = word::get32(state, 0);
    let outcome = if wires::is_high(source.format, state, source.h.finish) {
        Outcome::Ended
    } else {
        Outcome::Open
    };
    Answer {
        outcome,
        instant,
        count,
        words,
    }
}

// Runs -----------------------------------------------------------------------------------------------------------------------------------

pub fn begin(format: Format, file: &[u8], words: &[u8], state: &mut [u8]) -> Answer
    requires { Runs format file.now state.old × (544 ≤ length words.now) }
    ensures state { state.new ≡ begin_state format (net_of file.now) (word_at words.now) state.old }
    ensures answer { result ≡ shows format file.now (begin_state format (net_of file.now) (word_at words.now) state.old) 1 }
{
    let source = Source {
        format,
        file,
        h: header::header_of(file),
    };
    beginning::begin_state(&source, words, state);
    shows(&source, state, 1)
}

// A continuing, or, with a start pulse and by 1, a start.
pub fn continue_by(
    format: Format,
    file: &[u8],
    starts: bool,
    state: &mut [u8],
    budget: u32,
) -> Answer
    requires { Runs format file.now state.old × (instant_of state.old + budget ≤ 1000000) × Ready format (net_of file.now) state.old }
    ensures state { state.new ≡ (continued_with format (net_of file.now) starts (finish_of file.now) budget state.old).state }
    ensures answer { result ≡ told format file.now (continued_with format (net_of file.now) starts (finish_of file.now) budget state.old) }
{
    let source = Source {
        format,
        file,
        h: header::header_of(file),
    };
    let went = continue_in(&source, starts, state, budget);
    if let Err(r) = went.checked {
        return Answer::refused(r);
    }
    shows(&source, state, went.count)
}

// A beginning, and a continuing by the budget unless the finish was high, on a full state.
pub fn full_run(file: &[u8], words: &[u8], budget: u32, state: &mut [u8]) -> Answer
    requires { Runs Full file.now state.old × (544 ≤ length words.now) × (budget ≤ 1000000) }
    ensures state { state.new ≡ full_state file.now words.now budget state.old }
    ensures answer { result ≡ shows Full file.now (full_state file.now words.now budget state.old) (full_count file.now words.now budget state.old) }
{
    let source = Source {
        format: Format::Full,
        file,
        h: header::header_of(file),
    };
    beginning::begin_state(&source, words, state);
    if wires::is_high(Format::Full, state, source.h.finish) {
        return shows(&source, state, 1);
    }
    // By `continue_state`, since `continue_in` takes 33 kB of stack, which only a compact state needs.
    let mut none = [0u8; 0];
    let went = continue_state(&source, false, state, budget, &mut none);
    shows(&source, state, 1 + went.count)
}
