// The number in flight, counted from the lines, the held bits and the start of a state.
// Refusal 15 alone counts it; an instant keeps the number that the header has.
// Each contract is an equation with model/State.
ghost use Rattle.std.specs.Prelude.{◌≡◌};
ghost use Rattle.model.specs.declared.Format.TheVariants.{Full};
ghost use Rattle.model.specs.NetlistFile.{count_of, net_of};
ghost use Rattle.model.specs.State.{line_bit, held_at, remaining_at, ones, in_flight, flight};
ghost use Rattle.state.specs.Stands.{Stands, Runs};

use crate::wires;
use model::sizes::{COMPACT_LEFT, STATE_LINE};
use model::{Cell, Format};
use netlist::cells::{Cells, Layout};

// How many of a line's newest d inputs are 1: whole bytes, then the low bits of one more.
fn ones(s: &[u8], k: usize, d: u8) -> u32
    requires { Stands Full s.now k }
    ensures { result ≡ ones (line_bit Full s.now k d) d }
{
    let at = wires::base(Format::Full, k) + STATE_LINE;
    let whole = usize::from(d / 8);
    let mut sum: u32 = 0;
    for byte in &s[at..at + whole] {
        sum += byte.count_ones();
    }
    sum + (s[at + whole] % (1u8 << (d % 8))).count_ones()
}

// How many pulses are in the line of a delay of d.
fn in_line(format: Format, s: &[u8], k: usize, d: u8) -> u32
    requires { Stands format s.now k }
    ensures { result ≡ ones (line_bit format s.now k d) d }
{
    match format {
        Format::Full => ones(s, k, d),
        Format::Compact => {
            let left = s[wires::base(format, k) + COMPACT_LEFT];
            u32::from((0 < left) & (left <= d))
        }
    }
}

// What is in flight at cell k, which is c. Kinds are the bytes of a netlist file.
fn in_flight(format: Format, c: Cell, s: &[u8], k: usize) -> u32
    requires { Stands format s.now k }
    ensures { result ≡ in_flight (line_bit format s.now k c.delay) (held_at format s.now k) (remaining_at format s.now k) c }
{
    let kind = c.kind;
    if kind == 34 {
        return in_line(format, s, k, c.delay);
    }
    if netlist::kinds::is_merge(kind) {
        return wires::held_bits(wires::held_at(format, s, k));
    }
    if kind == 32 {
        return u32::from(wires::remaining_at(format, s, k));
    }
    0
}

// Of the n cells of a file. Their places in a state are by its format, so there they are asked for by number.
pub fn flight(format: Format, file: &[u8], n: usize, s: &[u8]) -> u32
    requires { Runs format file.now s.now × (n ≡ count_of file.now) }
    ensures { result ≡ flight format (net_of file.now) s.now }
{
    let mut sum: u32 = 0;
    let cells = Cells {
        bytes: file,
        layout: Layout::InFile,
        next: 0,
        end: n,
    };
    for (k, c) in cells.enumerate() {
        sum += in_flight(format, c, s, k);
    }
    sum
}
