// One further instant of a netlist file that is accepted, on a state of its size. The cells are read where the file is lent.
// Three passes over the cells, each an equation with `up_to` of model/State. The third keeps the number in flight: it adds what comes in and
// takes off what goes out, cell by cell; and it looks for refusal 26 on its way, where it leaves the instant unfinished.
ghost use Rattle.model.specs.Refusals.{Accepted};
ghost use Rattle.std.specs.Prelude.{◌≡◌, ◌+◌, ◌*◌, ◌<◌, ◌≤◌, length, Err};
ghost use Rattle.model.specs.declared.Refusal.{Refusal};
ghost use Rattle.model.specs.Word.{element_of, put32};
ghost use Rattle.model.specs.Circuit.{cell_at, shape};
ghost use Rattle.model.specs.State.{element_now, instant_of, next_value, value, up_to, aged, stored, shown, settle, settled, counted, crowding, base, step_state};
ghost use Rattle.model.specs.NetlistFile.{cell_limit, in_file, cells_of, net_of};
ghost use Rattle.laws.specs.State.Flight.{comes_in, goes_out};
ghost use Rattle.state.specs.Stands.{Stands, Sees, Ready};
ghost use Rattle.simulator.specs.Fits.{Fits, Holds, Spares};
ghost use Rattle.simulator.specs.Keeping.{Roomy};
ghost use Rattle.simulator.specs.Levels.{valued};

use crate::keeping;
use crate::source::Source;
use model::sizes::BLOCK_HEADER;
use model::{Cell, Checked, Format, refuse};
use netlist::cells::Layout;
use state::{lines, wires};

// The element with index w, as it is now, of the array whose 42 is cell a.
fn element_now(source: &Source<'_>, a: usize, w: u16, state: &[u8]) -> u16
    requires { Fits source.now.format source.now.file.now source.now.h state.now × (a < source.now.h.count) × ((cell_at (cells_of source.now.file.now) a).delay < 4) }
    ensures { result ≡ element_now source.now.format (net_of source.now.file.now) state.now (element_of (cell_at (cells_of source.now.file.now) a).delay w) }
{
    let array = netlist::cells::cell_at(source.file, Layout::InFile, a);
    word::get16(
        state,
        wires::element_place(source.format, source.h.count, array.delay as usize, w),
    )
}

// What cell k, which is c, shows after instant 0; `starts`, here and in what goes over instants, is the model's: whether a start pulse is given. A kind is
// the byte that a netlist file has, so the match is on numbers; they widen by `as`, with which proofs compute, where `From` is an equation at each use.
// Crate slow's next_word has like arms of its rings: the two share five lines, whose x and y are read otherwise.
// Inlined, so that a program that runs full states alone looks at no format for each cell.
#[inline(always)]
pub fn next_value(source: &Source<'_>, starts: bool, c: Cell, state: &[u8], k: usize) -> u16
    requires { Holds source.now.format source.now.file.now source.now.h state.now k c }
    ensures { result ≡ next_value source.now.format (shape c.kind) starts (net_of source.now.file.now) state.now k c }
{
    let kind = c.kind;
    if kind == 1 {
        return c.a;
    }
    if kind == 34 {
        return lines::line_out(source.format, state, k, c.delay);
    }
    let a = c.a as usize;
    let b = c.b as usize;
    if kind == 40 {
        let from = if wires::has_fallen(source.format, state, a) {
            b
        } else {
            k
        };
        return wires::before_at(source.format, state, from);
    }
    let x = wires::now_at(source.format, state, a);
    let y = wires::now_at(source.format, state, b);
    match kind {
        3..=9 => word::operate(kind, x, y),
        32 => {
            let remaining = wires::remaining_at(source.format, state, k);
            word::bit(starts | (remaining != 0))
        }
        35 => word::bit((x == 1) | (y == 1)),
        36 => word::bit((x == 1) & (y != 0)),
        37 => word::bit((x == 1) & (y == 0)),
        38 | 39 => wires::merged(
            source.format,
            state,
            k,
            source.h.pulse,
            kind,
            x == 1,
            y == 1,
        ),
        41 => if x == 1 { y } else { 0 },
        44 => element_now(source, a, y, state),
        45 => wires::latched(source.format, state, k, a, b),
        _ => 0,
    }
}

// A 42 whose clock falls takes a word in, from the data and the address of an instant ago. The cell behind it, which names the address, begins at next.
pub fn store(source: &Source<'_>, c: Cell, next: usize, state: &mut [u8], k: usize)
    requires { Holds source.now.format source.now.file.now source.now.h state.old k c × (next ≡ in_file (k + 1)) }
    ensures { state.new ≡ stored source.now.format (net_of source.now.file.now) state.old k }
{
    if (c.kind == 42) && wires::has_fallen(source.format, state, c.a as usize) {
        let address = netlist::cells::cell_from(source.file, next);
        let w = wires::before_at(source.format, state, address.a as usize);
        let v = wires::before_at(source.format, state, c.b as usize);
        let place = wires::element_place(source.format, source.h.count, c.delay as usize, w);
        word::put16(state, place, v);
    }
}

// A delay takes its input in, a merge holds, the start has an instant less to be high; answers the number in flight after it.
// What goes out is taken off last, so that nothing falls below 0. The number is at most 255 for each cell.
pub fn settle(format: Format, pulse: u8, c: Cell, state: &mut [u8], k: usize, number: u32) -> u32
    requires { Stands format state.old k × Sees format state.old c × (number ≤ 255 * cell_limit) × (goes_out format state.old k c ≤ number + comes_in format pulse state.old k c) }
    ensures state { state.new ≡ settle format pulse (shape c.kind) state.old k c }
    ensures number { result + goes_out format state.old k c ≡ number + comes_in format pulse state.old k c }
{
    let kind = c.kind;
    let a = c.a as usize;
    let b = c.b as usize;
    if kind == 34 {
        let x = wires::is_high(format, state, a);
        let out = lines::line_out(format, state, k, c.delay);
        lines::take_in(format, state, k, c.delay, x);
        return number + u32::from(x) - (out as u32);
    }
    if netlist::kinds::is_merge(kind) {
        let x = wires::is_high(format, state, a);
        let y = wires::is_high(format, state, b);
        let was = wires::before_at(format, state, k) == 1;
        let held = wires::held_at(format, state, k);
        let m = held.step_of(pulse, kind, was, x, y);
        wires::hold(format, state, k, m.held);
        return number + wires::held_bits(m.held) - wires::held_bits(held);
    }
    if kind == 32 {
        let high = wires::is_high(format, state, k);
        let at = wires::remaining_byte(format, k);
        let old = state[at];
        let new = wires::remaining_step(pulse, old, high);
        state[at] = new;
        return number + (new as u32) - (old as u32);
    }
    number
}

// The passes -----------------------------------------------------------------------------------------------------------------------------

// One instant more in the header.
fn tick(state: &mut [u8])
    requires { (3 < length state.old) × (instant_of state.old < 1000000) }
    ensures { state.new ≡ put32 state.old 0 (instant_of state.old + 1) }
{
    let t = word::get32(state, 0);
    word::put32(state, 0, t + 1);
}

// Comes before any cell is shown: a memory looks at what any cell was an instant ago. By number, as all that writes to the cells of a state: of chunks that
// were lent to be written a proof knows the lengths alone afterwards.
fn age_all(format: Format, state: &mut [u8], n: usize)
    requires { (n ≤ cell_limit) × (base format n ≤ length state.old) }
    ensures { state.new ≡ up_to (aged format) n state.old }
{
    for k in 0..n {
        let v = wires::now_at(format, state, k);
        let at = wires::base(format, k);
        word::put16(state, at + 2, v);
    }
}

// In rising order, since cells look at what lower ones are now, and a read at what its array has taken in. Beside k goes `at`, the cell's place in the file,
// where each block has a header: no step of one size leads from cell to cell, and by k alone, as netlist's Cells goes, a place is a division. Instant 0 has
// a loop of its own in crate::beginning: it counts memories on the way, which a function for both would have to tell of a closure's own state.
fn show_all(source: &Source<'_>, starts: bool, state: &mut [u8])
    requires { Fits source.now.format source.now.file.now source.now.h state.old }
    ensures { state.new ≡ up_to (shown source.now.format (net_of source.now.file.now) (value source.now.format (net_of source.now.file.now) starts)) source.now.h.count state.old }
{
    let mut at = BLOCK_HEADER;
    for k in 0..source.h.count {
        let c = netlist::cells::cell_from(source.file, at);
        let v = next_value(source, starts, c, state, k);
        at = netlist::cells::next_offset(at);
        store(source, c, at, state, k);
        let to = wires::base(source.format, k);
        word::put16(state, to, v);
    }
}

// Comes last: a delay's input may be a higher cell. The check is written out, as in keeping::check_lines: as a function that answers a refusal for `?` it took
// a fifth more instructions of this pass, and as one loop with it this pass would settle what is to be taken back. The header gets the number in flight that
// this leaves, unless 26 ends it at some cell.
pub fn settle_all(source: &Source<'_>, state: &mut [u8]) -> Checked
    requires { Fits source.now.format source.now.file.now source.now.h state.old × Ready source.now.format (net_of source.now.file.now) state.old }
    ensures check { result ≡ crowding source.now.format (net_of source.now.file.now) state.old state.old }
    ensures state { result ≡ Accepted → state.new ≡ counted source.now.format (net_of source.now.file.now) (up_to (settled source.now.format (net_of source.now.file.now)) source.now.h.count state.old) }
    ensures spares { Spares source.now.format source.now.h.count state.old state.new }
{
    let mut number = word::get32(state, 4);
    let mut at = BLOCK_HEADER;
    for k in 0..source.h.count {
        let c = netlist::cells::cell_from(source.file, at);
        if (c.kind == 34) && lines::is_crowded(source.format, c, state, k) {
            return refuse(26, k);
        }
        number = settle(source.format, source.h.pulse, c, state, k, number);
        at = netlist::cells::next_offset(at);
    }
    word::put32(state, 4, number);
    Ok(())
}

// The first two passes: each cell shows its value of the next instant.
fn show(source: &Source<'_>, starts: bool, state: &mut [u8])
    requires { Fits source.now.format source.now.file.now source.now.h state.old × (instant_of state.old < 1000000) }
    ensures { state.new ≡ valued source.now.format (net_of source.now.file.now) starts state.old }
{
    tick(state);
    age_all(source.format, state, source.h.count);
    show_all(source, starts, state);
}

// One further instant, with a start pulse or without. Where 26 ends it, the state is as it was if there is room to keep what the instant overwrites, and
// else at no instant.
pub fn step(source: &Source<'_>, starts: bool, state: &mut [u8], kept: &mut [u8]) -> Checked
    requires { Fits source.now.format source.now.file.now source.now.h state.old × (instant_of state.old < 1000000) × Ready source.now.format (net_of source.now.file.now) state.old }
    ensures check { result ≡ crowding source.now.format (net_of source.now.file.now) state.old (step_state source.now.format (net_of source.now.file.now) starts state.old) }
    ensures state { result ≡ Accepted → state.new ≡ step_state source.now.format (net_of source.now.file.now) starts state.old }
    ensures spares { Spares source.now.format source.now.h.count state.old state.new }
    ensures back { Roomy kept.old → (q : Refusal) → result ≡ Err q → state.new ≡ state.old }
{
    keeping::keep(source.format, kept, state, source.h.count);
    show(source, starts, state);
    if keeping::KEPT <= kept.len() {
        if let Err(r) = keeping::check_lines(source, state) {
            keeping::take_back(source.format, state, kept, source.h.count);
            return Err(r);
        }
    }
    settle_all(source, state)
}
