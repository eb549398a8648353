// Refusal 15: whether a state is one that its netlist could have.
// Each contract is an equation with model/State.
ghost use Rattle.std.specs.Prelude.{◌≡◌, ◌+◌, ◌-◌, ◌≤◌, eqb, length, take, drop};
ghost use Rattle.model.specs.Word.{pick};
ghost use Rattle.model.specs.NetlistFile.{all_zero, cells_of, pulse_of, net_of};
ghost use Rattle.model.specs.State.{line_sound, cell_sound, cells_sound, sound};
ghost use Rattle.netlist.specs.Headers.{header_of};
ghost use Rattle.state.specs.Stands.{Stands, Runs};

use crate::{flight, wires};
use model::sizes::{COMPACT_LEFT, LINE, STATE_LINE};
use model::{Cell, Format};
use netlist::cells::{Cells, Layout};
use netlist::header::Header;

// Whether n bytes from i on are zero. netlist's zero_from asks it of a block's end: what the two share is the one line.
fn all_zero(s: &[u8], i: usize, n: usize) -> bool
    requires { i + n ≤ length s.now }
    ensures { result ≡ all_zero (take n (drop i s.now)) }
{
    s[i..i + n].iter().all(|b| *b == 0)
}

// The most instants that a start can have left, with pulses of this length; any other cell has none. Kinds are the bytes of a netlist file.
fn most_left(pulse: u8, c: Cell) -> u8
    ensures { result ≡ pick (eqb c.kind 32) (pulse - 1) 0 }
{
    if c.kind == 32 {
        pulse.saturating_sub(1)
    } else {
        0
    }
}

// Whether the bytes of a line, and those beside it, are such as cell k, which is c, could have.
fn line_sound(format: Format, pulse: u8, c: Cell, s: &[u8], k: usize) -> bool
    requires { Stands format s.now k }
    ensures { result ≡ line_sound format pulse c s.now k }
{
    let kind = c.kind;
    let at = wires::base(format, k);
    let most = most_left(pulse, c);
    match format {
        Format::Full => {
            let zeros = all_zero(s, at + 6, 2);
            let line = all_zero(s, at + STATE_LINE + 1, LINE - 1);
            zeros & ((kind == 34) | ((s[at + STATE_LINE] <= most) & line))
        }
        Format::Compact => {
            let left = s[at + COMPACT_LEFT];
            let limit = if kind == 34 { c.delay } else { most };
            (left <= limit) & (s[at + 7] == 0)
        }
    }
}

// Whether cell k, which is c, has nothing set that it has no use for.
fn cell_sound(format: Format, pulse: u8, c: Cell, s: &[u8], k: usize) -> bool
    requires { Stands format s.now k }
    ensures { result ≡ cell_sound format pulse c s.now k }
{
    let kind = c.kind;
    let at = wires::base(format, k);
    let most_a = word::bit(netlist::kinds::is_merge(kind));
    let most_b = word::bit(kind == 38);
    let now = wires::now_at(format, s, k);
    let ago = wires::before_at(format, s, k);
    let values = !netlist::kinds::is_control(kind) | ((now <= 1) & (ago <= 1));
    let held = (u16::from(s[at + 4]) <= most_a) & (u16::from(s[at + 5]) <= most_b);
    let line = line_sound(format, pulse, c, s, k);
    values & (held & line)
}

// A state's cells go by number, as in crate::flight.
fn cells_sound(format: Format, file: &[u8], h: Header, s: &[u8]) -> bool
    requires { Runs format file.now s.now × (h ≡ header_of file.now) }
    ensures { result ≡ cells_sound format (pulse_of file.now) (cells_of file.now) s.now 0 }
{
    let cells = Cells {
        bytes: file,
        layout: Layout::InFile,
        next: 0,
        end: h.count,
    };
    for (k, c) in cells.enumerate() {
        if !cell_sound(format, h.pulse, c, s, k) {
            return false;
        }
    }
    true
}

#[tactic(auto, unfolding(model::specs::State::sound))]
pub fn is_sound(format: Format, file: &[u8], h: Header, s: &[u8]) -> bool
    requires { Runs format file.now s.now × (h ≡ header_of file.now) }
    ensures { result ≡ sound format (net_of file.now) s.now }
{
    let number = word::get32(s, 4);
    let flight = flight::flight(format, file, h.count, s);
    let cells = cells_sound(format, file, h, s);
    (number == flight) & cells
}
