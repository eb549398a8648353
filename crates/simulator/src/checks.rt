// The checks of the four calls: refusals 9 to 16, 27 and 23 in their order, with nothing written.
// Each contract is `first` of the list of checks in model/Calls.
ghost use Rattle.std.specs.Prelude.{◌≡◌, [], ◌∷◌, ◌+◌, ◌≤◌, length};
ghost use Rattle.model.specs.Refusals.{refuse, refuse_if, first};
ghost use Rattle.model.specs.State.{base};
ghost use Rattle.model.specs.Calls.{is_too_long, short, begin_checks, continue_checks, start_checks, run_netlist_checks};
ghost use Rattle.model.specs.NetlistFile.{cell_limit};

use model::asked::check_asked;
use model::sizes::{ELEMENTS, LAST_INSTANT, START_WORDS};
use model::{Checked, Format, Refusal, refuse};
use netlist::header;
use state::{sound, wires};

// Refusals are numbers, as callers get them. Numbers widen by `as`, with which proofs compute.

// Refusal 14 of a state of n cells.
fn check_room(format: Format, n: usize, state: &[u8]) -> Checked
    requires { n ≤ cell_limit }
    ensures { result ≡ short (length state.now) (base format n + 512) }
{
    if state.len() < wires::base(format, n) + ELEMENTS {
        return refuse(14, 0);
    }
    Ok(())
}

// Refusal 14 of start words and of a state of n cells.
fn check_lent(format: Format, n: usize, words: &[u8], state: &[u8]) -> Checked
    requires { n ≤ cell_limit }
    ensures { result ≡ first (short (length words.now) 544 ∷ short (length state.now) (base format n + 512) ∷ []) }
{
    if words.len() < START_WORDS {
        return refuse(14, 0);
    }
    check_room(format, n, state)
}

// Refusal 27 of a compact state: it goes with pulses of one instant.
fn check_format(format: Format, pulse: u8) -> Checked
    ensures { result ≡ refuse_if (is_too_long format pulse) 27 0 }
{
    match format {
        Format::Compact if 1 < pulse => refuse(27, 0),
        _ => Ok(()),
    }
}

pub fn check_begin(format: Format, file: &[u8], words: &[u8], state: &[u8]) -> Checked
    ensures { result ≡ first (begin_checks format file.now words.now state.now) }
{
    netlist::check_file(file)?;
    let h = header::header_of(file);
    check_format(format, h.pulse)?;
    check_lent(format, h.count, words, state)
}

// Refusal 16 takes the sum without wrapping.
pub fn check_continue(format: Format, file: &[u8], n: u32, state: &[u8]) -> Checked
    ensures { result ≡ first (continue_checks format file.now n state.now) }
{
    netlist::check_file(file)?;
    let h = header::header_of(file);
    check_format(format, h.pulse)?;
    check_room(format, h.count, state)?;
    if !sound::is_sound(format, file, h, state) {
        return refuse(15, 0);
    }
    let t = word::get32(state, 0) as u64;
    if (LAST_INSTANT as u64) < t + (n as u64) {
        return refuse(16, 0);
    }
    Ok(())
}

// A start's instant counts as a continuing by 1 does. With pulses of more than one instant it also waits for a low finish.
pub fn check_start(format: Format, file: &[u8], state: &[u8]) -> Checked
    ensures { result ≡ first (start_checks format file.now state.now) }
{
    check_continue(format, file, 1, state)?;
    let h = header::header_of(file);
    let high = wires::is_high(format, state, h.finish);
    let long = 1 < h.pulse;
    if (0 < word::get32(state, 4)) | (long & high) {
        return refuse(23, 0);
    }
    Ok(())
}

pub fn check_run(file: &[u8], words: &[u8], budget: u32, state: &[u8]) -> Checked
    ensures { result ≡ first (run_netlist_checks file.now words.now budget state.now) }
{
    netlist::check_file(file)?;
    check_asked(budget, words)?;
    let h = header::header_of(file);
    check_room(Format::Full, h.count, state)
}
