// The ors: those that join the wires of each variable's assignments, with the memories and arrays that they feed, and those that join the delays
// of each procedure's callers. Arrays are variables 16 to 19.
// An assignment has four marks: its variable, its first delay cell, its kind 41 cells, of the value and of an element's index. So has a call:
// 20 and the procedure, which is above every variable, its delay cell, and two that are never read.
// The marks are numbers one after another, and no structs: a joint takes one of the four by its number.
ghost use Rattle.std.specs.Prelude.{◌≡◌, ◌+◌, ◌-◌, ◌*◌, ◌≤◌, length, drop};
ghost use Rattle.model.specs.Numbering.{wires_of, or_count, or_count_from, memories_of, arrays_of};
ghost use Rattle.compiler.specs.Writes.{write};
ghost use Rattle.compiler.specs.Ors.{sources_in, OrsReady, Joined, Ored};

use crate::chain::Chain;
use crate::walk::Word;

// How wires are joined: the kind of the ors, the wire where there is none to join, which of its marks is an assignment's or a call's wire, and
// the first variable whose wires are joined.
#[derive(Clone, Copy)]
pub struct Joint {
    pub kind: u8,
    pub none: u16,
    pub mark: usize,
    pub first: u16,
}

// The wire of each variable from a joint's first on, and the next cell.
#[derive(Clone, Copy)]
pub struct Ors {
    pub wires: [u16; 20],
    pub next: u16,
}

// Joins the wires of variable x, from cell n on; of 20 + p they are the delays of the callers of procedure p.
pub fn put_chain(cells: &mut [u8], marks: &[u16], joint: Joint, x: u16, n: u16) -> Word
    requires { OrsReady joint n (or_count (wires_of x (sources_in joint.mark marks.now))) (length cells.old) }
    ensures { Joined joint n (wires_of x (sources_in joint.mark marks.now)) cells.old cells.new result }
{
    let mut chain = Chain::new(joint.kind, n);
    for own in marks.chunks_exact(4) {
        if own[0] == x {
            chain.join(cells, own[joint.mark]);
        }
    }
    chain.end(joint.none)
}

// Joins the wires of all variables from the joint's first on, from cell n on. x is the number that a chain is told, and where its wire stands: an
// enumerate of `wires` with a skip would have to cast it back.
pub fn put_ors(cells: &mut [u8], marks: &[u16], joint: Joint, n: u16) -> Ors
    requires { OrsReady joint n (or_count_from (sources_in joint.mark marks.now) joint.first (20 - joint.first)) (length cells.old) }
    ensures { Ored joint n (sources_in joint.mark marks.now) cells.old cells.new result }
{
    let mut wires = [0u16; 20];
    let mut next = n;
    for x in joint.first..20 {
        let joined = put_chain(cells, marks, joint, x, next);
        wires[usize::from(x)] = joined.wire;
        next = joined.cell;
    }
    Ors { wires, next }
}

// The sixteen memories, kind 40 of each variable's clock and data. Variable x is an index of both lists, and its memory's place.
pub fn put_memories(cells: &mut [u8], clocks: &[u16; 20], datas: &[u16; 20], memory: u16)
    requires { (memory + 24 ≤ 627) × (6 * (memory + 24) ≤ length cells.old) × (length clocks.now ≡ 20) × (length datas.now ≡ 20) }
    ensures { cells.new ≡ write memory (memories_of clocks.now datas.now 0 16) cells.old }
{
    for x in 0..16 {
        let at = usize::from(x);
        crate::walk::put(cells, memory + x, 40, 0, clocks[at], datas[at]);
    }
}

// Array by array, kind 42 of its clock and data, and next to it kind 43 of its address. Array k is the delay of its own 42 too,
// so k is an index of three lists, and two numbers.
pub fn put_arrays(
    cells: &mut [u8],
    clocks: &[u16; 20],
    datas: &[u16; 20],
    addresses: &[u16; 20],
    first: u16,
)
    requires { (first + 8 ≤ 627) × (6 * (first + 8) ≤ length cells.old) × (length clocks.now ≡ 20) × (length datas.now ≡ 20) × (length addresses.now ≡ 20) }
    ensures { cells.new ≡ write first (arrays_of clocks.now datas.now (drop 16 addresses.now) 0 4) cells.old }
{
    for k in 0..4 {
        let at = 16 + usize::from(k);
        let own = first + 2 * u16::from(k);
        crate::walk::put(cells, own, 42, k, clocks[at], datas[at]);
        crate::walk::put(cells, own + 1, 43, 0, addresses[at], 0);
    }
}
