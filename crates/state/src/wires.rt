// One cell's bytes in a state: where they stand, its values, its held bits; and where an element's word stands.
// Each contract is an equation with model/State; the cell stands in the state. Format, bytes and cell are parameters of their own: readers are lent the
// bytes and writers write them, so that a struct of the three would be two, and a step looks at two or three cells of one state. A kind is the byte that a
// netlist file has.
ghost use Rattle.std.specs.Prelude.{◌≡◌, not, ◌&&◌, ◌+◌, ◌*◌, ◌<◌, ◌≤◌};
ghost use Rattle.model.specs.Word.{pick, bit, element_of};
ghost use Rattle.model.specs.Circuit.{high, remaining_step, step_of};
ghost use Rattle.model.specs.State.{cell_size, base, now_at, before_at, held_at, held_bits, holding, remaining_byte, remaining_at};
ghost use Rattle.model.specs.NetlistFile.{cell_limit};
ghost use Rattle.state.specs.Stands.{Stands};

use model::sizes::{COMPACT_CELL, COMPACT_LEFT, STATE_CELL, STATE_HEADER, STATE_LINE};
use model::{Format, Merge};

// How many bytes a cell has.
pub fn cell_size(format: Format) -> usize
    ensures { result ≡ cell_size format }
{
    match format {
        Format::Full => STATE_CELL,
        Format::Compact => COMPACT_CELL,
    }
}

// The byte at which cell k begins. The size is a factor, and not each product an arm, so that it is taken out of loops.
pub fn base(format: Format, k: usize) -> usize
    requires { k ≤ cell_limit }
    ensures { result ≡ base format k }
{
    STATE_HEADER + cell_size(format) * k
}

pub fn now_at(format: Format, state: &[u8], k: usize) -> u16
    requires { Stands format state.now k }
    ensures { result ≡ now_at format state.now k }
{
    let at = base(format, k);
    word::get16(state, at)
}

pub fn before_at(format: Format, state: &[u8], k: usize) -> u16
    requires { Stands format state.now k }
    ensures { result ≡ before_at format state.now k }
{
    let at = base(format, k);
    word::get16(state, at + 2)
}

pub fn is_high(format: Format, state: &[u8], k: usize) -> bool
    requires { Stands format state.now k }
    ensures { result ≡ high (now_at format state.now k) }
{
    now_at(format, state, k) == 1
}

// A wire was high an instant ago and is so no more. Crate slow asks the same of its rings; all that the two share is the last line.
pub fn has_fallen(format: Format, state: &[u8], k: usize) -> bool
    requires { Stands format state.now k }
    ensures { result ≡ high (before_at format state.now k) && not (high (now_at format state.now k)) }
{
    let now = is_high(format, state, k);
    (before_at(format, state, k) == 1) & !now
}

// What latch k shows: the word b of an instant ago, if control a was 1 then, and else its own.
pub fn latched(format: Format, state: &[u8], k: usize, a: usize, b: usize) -> u16
    requires { Stands format state.now k × Stands format state.now a × Stands format state.now b }
    ensures { result ≡ pick (high (before_at format state.now a)) (before_at format state.now b) (before_at format state.now k) }
{
    if before_at(format, state, a) == 1 {
        return before_at(format, state, b);
    }
    before_at(format, state, k)
}

// The byte at which the word of an array's element begins, behind n cells; the low six bits of the index count.
pub fn element_place(format: Format, n: usize, array: usize, w: u16) -> usize
    requires { (n ≤ cell_limit) × (array < 4) }
    ensures { result ≡ base format n + 2 * element_of array w }
{
    let at = base(format, n);
    at + 2 * (64 * array + usize::from(w % 64))
}

#[tactic(auto, unfolding(model::specs::State::held_at))]
pub fn held_at(format: Format, state: &[u8], k: usize) -> Merge
    requires { Stands format state.now k }
    ensures { result ≡ held_at format state.now k }
{
    let at = base(format, k);
    let a = state[at + 4] == 1;
    let b = state[at + 5] == 1;
    Merge { a, b }
}

// How many bits a merge holds.
#[tactic(auto, unfolding(model::specs::Word::bit))]
pub fn held_bits(m: Merge) -> u32
    ensures { result ≡ held_bits m }
{
    u32::from(m.a) + u32::from(m.b)
}

// The output of a merge of this kind with inputs a and b, which the caller has read: so they are parameters beside the cell, and no cell is.
pub fn merged(format: Format, state: &[u8], k: usize, pulse: u8, kind: u8, a: bool, b: bool) -> u16
    requires { Stands format state.now k }
    ensures { result ≡ bit (step_of pulse kind (high (before_at format state.now k)) (held_at format state.now k) a b).out }
{
    let was = before_at(format, state, k) == 1;
    let held = held_at(format, state, k);
    let m = held.step_of(pulse, kind, was, a, b);
    word::bit(m.out)
}

#[tactic(auto, unfolding(model::specs::State::holding, model::specs::Word::bit))]
pub fn hold(format: Format, state: &mut [u8], k: usize, m: Merge)
    requires { Stands format state.old k }
    ensures { state.new ≡ holding format state.old k m }
{
    let at = base(format, k);
    state[at + 4] = u8::from(m.a);
    state[at + 5] = u8::from(m.b);
}

// Where the start's remaining high instants stand: the first byte of its line.
#[tactic(auto, unfolding(model::specs::State::remaining_byte))]
pub fn remaining_byte(format: Format, k: usize) -> usize
    requires { k ≤ cell_limit }
    ensures { result ≡ remaining_byte format k }
{
    let at = base(format, k);
    match format {
        Format::Full => at + STATE_LINE,
        Format::Compact => at + COMPACT_LEFT,
    }
}

pub fn remaining_at(format: Format, state: &[u8], k: usize) -> u8
    requires { Stands format state.now k }
    ensures { result ≡ remaining_at format state.now k }
{
    state[remaining_byte(format, k)]
}

// How many remain after an instant in which the start is high or not.
#[tactic(auto, unfolding(model::specs::Circuit::remaining_step))]
pub fn remaining_step(pulse: u8, remaining: u8, high: bool) -> u8
    ensures { result ≡ remaining_step pulse remaining high }
{
    if (remaining == 0) & high {
        pulse.saturating_sub(1)
    } else {
        remaining.saturating_sub(1)
    }
}
