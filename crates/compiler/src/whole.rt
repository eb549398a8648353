// The whole netlist, from its parts, as a list of cells.
// Where the memories and the walk begin depends on how many delay cells and ors come before, and a body's start on its callers' delays, which all
// come later; so the walk is done twice, and the first, with no callers, only tells that. What it puts in is put over later, or lies past the
// netlist: it begins at cell 203, since a program of 200 nodes has at most 200 delay cells; and it stays below cell 627, the most that a netlist
// has, since no walk has more than 400.
ghost use Rattle.std.specs.Prelude.{◌≡◌, List, [], ℕ, ◌≤◌, length};
ghost use Rattle.model.specs.Program.{Program, program_of};
ghost use Rattle.model.specs.Numbering.{Source, head_cells, idle_start, calls_of, memory_at};
ghost use Rattle.compiler.specs.Writes.{write};
ghost use Rattle.compiler.specs.Walk.{finish_in};
ghost use Rattle.compiler.specs.Nodes.{IsLaid, stmt_in};
ghost use Rattle.compiler.specs.Whole.{Given, callers_in, Calls, RootReady, RootDone, RootsReady, RootsDone, Put, FirstPut, LastPut, Clocked, Walked, Closing, Closable, Made};

use crate::ors::Joint;
use crate::walk::{Known, Place};
use crate::words::Memories;
use program::nodes::Tree;

// A program, how many procedures it has, and the length of a pulse.
#[derive(Clone, Copy)]
pub struct Input<'a> {
    pub tree: Tree<'a>,
    pub procedures: usize,
    pub pulse: u8,
}

// What the first walk and the clock ors leave: each variable's clock wire, the first memory, and how many assignments and calls there are, whose marks
// lie in a list of a fixed size (crate::walk::Place).
#[derive(Clone, Copy)]
pub struct Clocks {
    pub wires: [u16; 20],
    pub memory: u16,
    pub count: usize,
}

// What the walk and the ors of words leave: each variable's data wire, each array's address wire, the number of cells, the finish, and where the ors
// begin.
#[derive(Clone, Copy)]
pub struct Finished {
    pub wires: [u16; 20],
    pub addresses: [u16; 20],
    pub count: u16,
    pub finish: u16,
    pub ors: u16,
}

// How many cells a netlist has, its finish, and where the ors behind the walk begin.
#[derive(Clone, Copy)]
pub struct Netlist {
    pub count: u16,
    pub finish: u16,
    pub ors: u16,
}

// A root: its number, the node at which it begins, and its start where nobody calls it.
#[derive(Clone, Copy)]
pub struct Root {
    pub number: u16,
    pub node: usize,
    pub idle: u16,
}

// The 35s that join the delays of a root's callers, and the root's own walk. The callers are told by the marks that a first walk left.
fn put_root(
    cells: &mut [u8],
    marks: &mut [u16; 800],
    callers: &[u16],
    known: &Known<'_>,
    root: Root,
    at: Place,
) -> Place
    requires { IsLaid known.now.tree × RootReady known.now.words.first (callers_in callers.now root.number) (stmt_in known.now.tree root.node) at (length cells.old) × (root.number ≤ 8) }
    ensures { RootDone known.now.pulse known.now.words.first (finish_in known.now.finishes) root.idle (callers_in callers.now root.number) (stmt_in known.now.tree root.node) at cells.old cells.new marks.old marks.new result }
{
    let joint = Joint {
        kind: 35,
        none: root.idle,
        mark: 1,
        first: 0,
    };
    let start = crate::ors::put_chain(cells, callers, joint, 20 + root.number, at.cell);
    let from = Place {
        wire: start.wire,
        cell: start.cell,
        out: 0,
        ..at
    };
    let mut outs = [0u16; 200];
    crate::walk::put_stmt(cells, marks, &mut outs, known, root.node, from)
}

// The start of a root that nobody calls: ground, and of the main program, the last root, cell 0.
fn idle_start(root: usize, procedures: usize) -> u16
    ensures { result ≡ idle_start procedures root }
{
    if root == procedures { 0 } else { 1 }
}

// The walks of all roots, the bodies' and then the main one, where the first memory is `memory`. A root's finish is known to those after it, and
// no root is called by one before it. r is a root's number, and decides its node, its finish's place and whether its start is idle.
fn put_roots(
    cells: &mut [u8],
    marks: &mut [u16; 800],
    callers: &[u16],
    input: &Input<'_>,
    memory: u16,
) -> Place
    requires { RootsReady input.now.pulse input.now.procedures input.now.tree.program.now input.now.tree.ends.now callers.now memory (length cells.old) }
    ensures { (cs : List Source) → Calls cs callers.now → RootsDone (program_of input.now.pulse input.now.procedures input.now.tree.program.now) cs memory cells.old cells.new marks.old marks.new result }
{
    let mut known = Known {
        tree: input.tree,
        words: Memories { first: memory },
        pulse: input.pulse,
        finishes: [0; 9],
    };
    let mut at = Place {
        wire: 0,
        delay: 3,
        cell: memory + 16 + 8,
        mark: 0,
        out: 0,
    };
    for r in 0..=input.procedures {
        let root = Root {
            number: r as u16,
            node: input.tree.skip(0, r),
            idle: idle_start(r, input.procedures),
        };
        at = put_root(cells, marks, callers, &known, root, at);
        known.finishes[r] = at.wire;
    }
    at
}

// The clock ors, by the marks of a first walk that has come to a place.
pub fn join_clocks(cells: &mut [u8], marks: &[u16; 800], end: Place) -> Clocks
    requires { FirstPut cells.old marks.now end }
    ensures { (S : Program) (before ms : List ℕ) → Put S [] 179 before cells.old ms marks.now end → Clocked S marks.now cells.new result }
{
    let count = end.mark / 4;
    let joint = Joint {
        kind: 35,
        none: 1,
        mark: 1,
        first: 0,
    };
    let joined = crate::ors::put_ors(cells, &marks[..4 * count], joint, end.delay);
    let wires = joined.wires;
    Clocks {
        wires,
        memory: joined.next,
        count,
    }
}

// The data ors and the address ors, by the marks of a second walk that has come to a place.
pub fn join_words(cells: &mut [u8], marks: &[u16; 800], end: Place) -> Finished
    requires { LastPut cells.old marks.now end }
    ensures { (S : Program) (before ms : List ℕ) → Put S (calls_of S) (memory_at S) before cells.old ms marks.now end → Walked S before cells.new result }
{
    let own = &marks[..4 * (end.mark / 4)];
    let of_data = Joint {
        kind: 7,
        none: 2,
        mark: 2,
        first: 0,
    };
    let joined = crate::ors::put_ors(cells, own, of_data, end.cell);
    let wires = joined.wires;
    let of_address = Joint {
        kind: 7,
        none: 2,
        mark: 3,
        first: 16,
    };
    let addressed = crate::ors::put_ors(cells, own, of_address, joined.next);
    let addresses = addressed.wires;
    Finished {
        wires,
        addresses,
        count: addressed.next,
        finish: end.wire,
        ors: end.cell,
    }
}

// The first three cells: the start, ground and a 0.
pub fn put_head(cells: &mut [u8])
    requires { 18 ≤ length cells.old }
    ensures { cells.new ≡ write 0 head_cells cells.old }
{
    crate::walk::put(cells, 0, 32, 0, 0, 0);
    crate::walk::put(cells, 1, 33, 0, 0, 0);
    crate::walk::put(cells, 2, 1, 0, 0, 0);
}

// The memories, the arrays and the first three cells.
pub fn close(cells: &mut [u8], clocks: Clocks, walked: Finished) -> Netlist
    requires { Closable cells.old clocks walked }
    ensures { (S : Program) → Closing S cells.old clocks walked → Made S cells.new result }
{
    let memory = clocks.memory;
    let clock_wires = clocks.wires;
    let data_wires = walked.wires;
    let address_wires = walked.addresses;
    crate::ors::put_memories(cells, &clock_wires, &data_wires, memory);
    crate::ors::put_arrays(
        cells,
        &clock_wires,
        &data_wires,
        &address_wires,
        memory + 16,
    );
    put_head(cells);
    Netlist {
        count: walked.count,
        finish: walked.finish,
        ors: walked.ors,
    }
}

// The first walk, with no callers, and the clock ors by its marks, which are left for the second. Behind memory 179 it begins at cell 203.
fn put_clocks(cells: &mut [u8], callers: &mut [u16; 800], input: &Input<'_>) -> Clocks
    requires { Given input.now.pulse input.now.procedures input.now.tree.program.now input.now.tree.ends.now (length cells.old) × (length callers.old ≡ 800) }
    ensures { Clocked (program_of input.now.pulse input.now.procedures input.now.tree.program.now) callers.new cells.new result }
{
    let first = put_roots(cells, callers, &[], input, 179);
    join_clocks(cells, callers, first)
}

// The second walk, with the callers that the first told: the delay cells and the walks; then the data ors and the address ors by its marks.
fn put_walk(cells: &mut [u8], callers: &[u16], input: &Input<'_>, memory: u16) -> Finished
    requires { Given input.now.pulse input.now.procedures input.now.tree.program.now input.now.tree.ends.now (length cells.old) × (memory ≡ memory_at (program_of input.now.pulse input.now.procedures input.now.tree.program.now)) × Calls (calls_of (program_of input.now.pulse input.now.procedures input.now.tree.program.now)) callers.now }
    ensures { Walked (program_of input.now.pulse input.now.procedures input.now.tree.program.now) cells.old cells.new result }
{
    let mut marks = [0u16; 800];
    let end = put_roots(cells, &mut marks, callers, input, memory);
    join_words(cells, &marks, end)
}

// The netlist of an accepted program.
pub fn put_netlist(
    cells: &mut [u8],
    program: &[u8],
    ends: &[usize; 200],
    procedures: usize,
    pulse: u8,
) -> Netlist
    requires { Given pulse procedures program.now ends.now (length cells.old) }
    ensures { Made (program_of pulse procedures program.now) cells.new result }
{
    let input = Input {
        tree: Tree { program, ends },
        procedures,
        pulse,
    };
    let mut callers = [0u16; 800];
    let clocks = put_clocks(cells, &mut callers, &input);
    let told = &callers[..4 * clocks.count];
    let walked = put_walk(cells, told, &input, clocks.memory);
    close(cells, clocks, walked)
}
