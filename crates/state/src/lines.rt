// A cell's line: what it puts out, what it takes in, whether it has room. Here the formats part.
// A full state keeps a line's last 256 inputs, a compact one the instants until its pulse comes out.
// Each contract is an equation with model/State; the cell stands in the state.
ghost use Rattle.std.specs.Prelude.{◌≡◌, ◌+◌, ◌-◌, ◌/◌, ◌%◌, ◌^◌, ◌<◌, ◌≤◌, length, get_or, set};
ghost use Rattle.model.specs.Word.{bit, pick};
ghost use Rattle.model.specs.State.{line_bit, shifted_in, taken_in};
ghost use Rattle.state.specs.Stands.{Stands, Sees};
ghost use Rattle.state.specs.Crowds.{crowds};

use crate::wires;
use model::sizes::{COMPACT_LEFT, LINE, STATE_LINE};
use model::{Cell, Format};

// The input d - 1 instants older than the newest, of a full line whose cell begins at `at`.
fn oldest(state: &[u8], at: usize, d: u8) -> u16
    requires { (at + 40 ≤ length state.now) × (1 ≤ d) }
    ensures { result ≡ get_or state.now (at + 8 + (d - 1) / 8) 0 / 2 ^ ((d - 1) % 8) % 2 }
{
    let i = usize::from(d) - 1;
    let byte = u16::from(state[at + STATE_LINE + i / 8]);
    (byte >> (i % 8)) % 2
}

// What a delay of d puts out.
pub fn line_out(format: Format, state: &[u8], k: usize, d: u8) -> u16
    requires { Stands format state.now k × (1 ≤ d) }
    ensures { result ≡ line_bit format state.now k d (d - 1) }
{
    let at = wires::base(format, k);
    match format {
        Format::Full => oldest(state, at, d),
        Format::Compact => word::bit(state[at + COMPACT_LEFT] == 1),
    }
}

// A full line moves by a bit; what comes in is the newest. Its cell begins at `at`.
fn shift_line(state: &mut [u8], at: usize, input: bool)
    requires { at + 40 ≤ length state.old }
    ensures { state.new ≡ shifted_in 32 state.old (at + 8) (bit input) }
{
    let first = at + STATE_LINE;
    let mut carry = word::bit(input);
    for byte in &mut state[first..first + LINE] {
        let v = 2 * u16::from(*byte) + carry;
        *byte = (v % 256) as u8;
        carry = v / 256;
    }
}

// A pulse that comes in has d instants left, one on its way an instant less; `input` is the bit that comes in. One write, whatever comes in, so that it is
// compiled without branches: pulses come at instants that no branch foretells.
fn count_down(state: &mut [u8], i: usize, d: u8, input: bool)
    requires { i < length state.old }
    ensures { state.new ≡ set state.old i (pick input d (get_or state.old i 0 - 1)) }
{
    let less = state[i].saturating_sub(1);
    state[i] = if input { d } else { less };
}

// A delay of d takes its input in.
pub fn take_in(format: Format, state: &mut [u8], k: usize, d: u8, input: bool)
    requires { Stands format state.old k }
    ensures { state.new ≡ taken_in format state.old k d input }
{
    let at = wires::base(format, k);
    match format {
        Format::Full => shift_line(state, at, input),
        Format::Compact => count_down(state, at + COMPACT_LEFT, d, input),
    }
}

// Whether a pulse enters the line of cell k, which is c, behind one that doesn't come out in this instant.
pub fn is_crowded(format: Format, c: Cell, state: &[u8], k: usize) -> bool
    requires { Stands format state.now k × Sees format state.now c × (c.kind ≡ 34) }
    ensures { result ≡ crowds format state.now k c }
{
    let at = wires::base(format, k);
    match format {
        Format::Full => false,
        Format::Compact => {
            let x = wires::is_high(format, state, usize::from(c.a));
            x & (1 < state[at + COMPACT_LEFT])
        }
    }
}
