// What a cell shows at an instant, what an array's elements become and what a cell holds, by the rings.
ghost use Rattle.std.specs.Prelude.{◌≡◌, ℕ, ◌+◌, ◌-◌, ◌*◌, ◌<◌, ◌≤◌, eqb, length, get_or};
ghost use Rattle.model.specs.Word.{pick, put16};
ghost use Rattle.model.specs.Circuit.{cell_at, shape, high};
ghost use Rattle.model.specs.NetlistFile.{cell_from};
ghost use Rattle.model.specs.Gates.{slow_size};
ghost use Rattle.slow.specs.Ring.{cells_of, slot, word_in, held_ring, held_code, merged_in, fallen_in, shown_in, time_at, taken_in, read_in, Sees, Leaves, Owned};

use crate::net::Net;
use crate::ring;
use model::{Cell, Merged};
use netlist::cells::Layout;

// The time of a kind, the byte that a netlist file has. One past the table's end takes none: 0 is its time, and stands for no answer.
fn entry(times: &[u8], k: usize) -> u32
    ensures { result ≡ get_or times.now k 0 }
{
    times.get(k).map_or(0, |x| u32::from(*x))
}

// An operator's time; behind the walk none.
fn time_at(times: &[u8], ors: usize, k: usize, kind: u8) -> u32
    ensures { result ≡ time_at times.now ors k kind }
{
    if k < ors {
        if kind == 44 {
            return entry(times, 10);
        }
        return entry(times, usize::from(kind));
    }
    0
}

// What merge k, which is c, makes of its inputs.
#[tactic(auto, unfolding(crate::specs::Ring::merge_in))]
fn merged(net: &Net<'_>, c: Cell, work: &[u8], k: usize, t: u32) -> Merged
    requires { (k < net.now.n) × (c.a < net.now.n) × (c.b < net.now.n) × (slow_size net.now.n ≤ length work.now) }
    ensures { result ≡ merged_in work.now net.now.n k c t }
{
    let x = ring::word_at(work, c.a as usize, t);
    let y = ring::word_at(work, c.b as usize, t);
    let held = ring::held_at(work, net.n, k, t);
    held.step_of(1, c.kind, false, x == 1, y == 1)
}

// A clock was high an instant ago and is so no more. Crate state asks the same of a state; all that the two share is the last line.
fn has_fallen(work: &[u8], a: usize, t: u32) -> bool
    requires { (a < 1024) × (512 * a + 512 ≤ length work.now) }
    ensures { result ≡ fallen_in work.now a t }
{
    let before = ring::past(work, a, t, 1);
    let now = ring::word_at(work, a, t);
    (before == 1) & (now != 1)
}

// What a cell that keeps a word shows: at first `first`, and then what the cell from which it takes its word showed an instant ago.
fn kept_word(first: u16, from: usize, work: &[u8], t: u32) -> u16
    requires { (from < 1024) × (512 * from + 512 ≤ length work.now) }
    ensures { result ≡ pick (eqb t 0) first (word_in work.now from (t - 1)) }
{
    if t == 0 {
        return first;
    }
    ring::word_at(work, from, t - 1)
}

// What cell k, which is c, shows at instant t; first is its start word, if it is a memory. A kind is the byte that a netlist file has, so the match is on
// numbers. They widen by `as`, with which proofs compute, where `From` is an equation to rewrite by at each use. Crate simulator's next_value has like
// arms of a state: the two share five lines, whose x and y are read otherwise.
pub fn next_word(net: &Net<'_>, first: u16, c: Cell, work: &[u8], k: usize, t: u32) -> u16
    requires { (k < net.now.n) × ((c.kind ≡ 1 → ⊥) → c.a < net.now.n) × (c.b < net.now.n) × (slow_size net.now.n ≤ length work.now) }
    ensures { result ≡ shown_in (shape c.kind) work.now net.now.n k c t (time_at net.now.times.now net.now.ors k c.kind) first }
{
    let kind = c.kind;
    if kind == 1 {
        return c.a;
    }
    let a = c.a as usize;
    let b = c.b as usize;
    if kind == 34 {
        let d = c.delay as u32;
        let v = ring::past(work, a, t, d);
        return word::bit(v == 1);
    }
    if kind == 40 {
        if has_fallen(work, a, t) {
            return kept_word(first, b, work, t);
        }
        return kept_word(first, k, work, t);
    }
    if kind == 45 {
        let from = if ring::past(work, a, t, 1) == 1 { b } else { k };
        return kept_word(0, from, work, t);
    }
    let d = time_at(net.times, net.ors, k, kind);
    if kind == 44 {
        return ring::past(work, net.n + 1 + k, t, d);
    }
    let x = ring::word_at(work, a, t);
    let y = ring::word_at(work, b, t);
    match kind {
        3..=9 => {
            let p = ring::past(work, a, t, d);
            let q = ring::past(work, b, t, d);
            word::operate(kind, p, q)
        }
        32 => word::bit(t == 0),
        35 => word::bit((x == 1) | (y == 1)),
        36 => word::bit((x == 1) & (y != 0)),
        37 => word::bit((x == 1) & (y == 0)),
        38 => word::bit(merged(net, c, work, k, t).out),
        39 => word::bit(merged(net, c, work, k, t).out),
        41 => if x == 1 { y } else { 0 },
        _ => 0,
    }
}

// Beside the value ---------------------------------------------------------------------------------------------------------------------------

// The elements of the array whose 42 is cell k: one of them changes, where its clock has fallen.
pub fn take_in(net: &Net<'_>, c: Cell, k: usize, work: &mut [u8], t: u32)
    requires { (k + 1 < net.now.n) × (c.delay < 4) × (c.a < net.now.n) × (c.b < net.now.n) × ((cell_from net.now.cells.now (6 * (k + 1))).a < net.now.n) × (slow_size net.now.n ≤ length work.old) }
    ensures leaves { Leaves net.now.n t (λ j. ⊥) (λ e. (64 * c.delay ≤ e) × (e < 64 * c.delay + 64)) work.old work.new }
    ensures elements { (i : ℕ) → i < 64 → word_in work.new net.now.n (64 * c.delay + i) ≡ taken_in work.old net.now.n c (cell_from net.now.cells.now (6 * (k + 1))).a t i }
{
    if t == 0 {
        return;
    }
    if has_fallen(work, c.a as usize, t) {
        let next = netlist::cells::cell_at(net.cells, Layout::InList, k + 1);
        let w = ring::word_at(work, next.a as usize, t - 1);
        let v = ring::word_at(work, c.b as usize, t - 1);
        ring::put_word(work, net.n, 64 * (c.delay as u32) + (w % 64) as u32, v);
    }
}

// The element that read k, which is c, reads.
pub fn read_in(net: &Net<'_>, c: Cell, k: usize, work: &mut [u8], t: u32)
    requires { (k < net.now.n) × (c.a < net.now.n) × (c.b < net.now.n) × ((cell_at (cells_of net.now) c.a).delay < 4) × (slow_size net.now.n ≤ length work.old) }
    ensures { work.new ≡ put16 work.old (slot (held_ring net.now.n k) t) (read_in work.old net.now.n c (cell_at (cells_of net.now) c.a).delay t) }
{
    let array = netlist::cells::cell_at(net.cells, Layout::InList, c.a as usize);
    let w = ring::word_at(work, c.b as usize, t);
    let v = ring::word_at(work, net.n, 64 * (array.delay as u32) + (w % 64) as u32);
    ring::put_word(work, net.n + 1 + k, t, v);
}

// What merge k holds after the instant.
pub fn hold(net: &Net<'_>, c: Cell, k: usize, work: &mut [u8], t: u32)
    requires { (k < net.now.n) × (c.a < net.now.n) × (c.b < net.now.n) × (slow_size net.now.n ≤ length work.old) }
    ensures { work.new ≡ put16 work.old (slot (held_ring net.now.n k) t) (held_code (merged_in work.old net.now.n k c t).held) }
{
    let code = ring::held_code(merged(net, c, work, k, t).held);
    ring::put_word(work, net.n + 1 + k, t, code);
}
