// What the reader keeps, and its moves: a function for each definition under "Steps" of model/Reader, on the stack, the nodes and the machine.
// Contracts: whatever reader is shown at entry, at exit the one is shown that the definition makes of it (`Follows`, specs/Shown).
ghost use Rattle.std.specs.Prelude.{◌≡◌, ◌<◌, ◌≤◌, List, ℕ, length};
ghost use Rattle.model.specs.Reader.{Reader, reader_at_first, leaf, opened, opened_node, between, closed, turned, reduced, with_delay};
ghost use Rattle.text.specs.declared.frames.Open.{Open};
ghost use Rattle.text.specs.Shown.{lists, Shows, Ready, Grows, Follows, FollowsWithin, Lists, with_mode, rewound, with_node};

use crate::frames::{self, Open};
use crate::nodes::bare;
use model::Node;
use model::texts::Mode;

// mode: what is expected. start: the first node of what was just read. height: of the stack. cursor: where the next node goes. count: of nodes.
// Height and count stand beside their lists, which are lent: there is no heap, and the nodes are the caller's bytes (program_of). A text of 4,096
// bytes has more nodes than these have room for, and they are counted all the same. So each move asks
// that the height lies within the stack: by a ghost field of Machine no literal could say `..self`, and each move would write out all five fields.
#[derive(Clone, Copy)]
pub struct Machine {
    pub mode: Mode,
    pub start: u16,
    pub height: usize,
    pub cursor: u16,
    pub count: u16,
}

impl Machine {
    // The machine before the first token.
    pub fn at_first() -> Machine
        ensures { (result.height ≡ 0) × (result.count ≡ 0) × ((l : Lists) → Shows reader_at_first result l) }
    {
        Machine {
            mode: Mode::Statement,
            start: 0,
            height: 0,
            cursor: 0,
            count: 0,
        }
    }

    // The machine in another mode.
    pub fn in_mode(self, mode: Mode) -> Machine
        ensures grows { Grows 0 0 self result }
        ensures follows { (l : Lists) → Follows (with_mode mode) self l result l }
    {
        Machine { mode, ..self }
    }

    // A node more, before node `at`; the cursor goes on by it.
    fn with_node(self, nodes: &mut [u8], at: u16, node: Node) -> Machine
        requires { (length nodes.old ≡ 800) × (self.count < 4096) }
        ensures grows { Grows 0 1 self result }
        ensures follows { (s : List Open) (r : Reader) → r.cursor < 65535 → Shows r self (lists s nodes.old) → Shows (with_node at node r) result (lists s nodes.new) }
    {
        crate::nodes::insert_node(nodes, at, self.count, node);
        Machine {
            cursor: self.cursor.wrapping_add(1),
            count: self.count + 1,
            ..self
        }
    }

    // A node more, at the cursor.
    pub fn leaf(self, nodes: &mut [u8], mode: Mode, node: Node) -> Machine
        requires { (length nodes.old ≡ 800) × (self.count < 4096) }
        ensures grows { Grows 0 1 self result }
        ensures follows { (s : List Open) → FollowsWithin (leaf mode node) self (lists s nodes.old) result (lists s nodes.new) }
    {
        Machine {
            mode,
            start: self.cursor,
            ..self.with_node(nodes, self.cursor, node)
        }
    }

    // A frame more, that begins at the cursor.
    pub fn opened(self, stack: &mut [Open], mode: Mode, code: u8) -> Machine
        requires { self.height < length stack.old }
        ensures grows { Grows 1 0 self result }
        ensures follows { (n : List ℕ) → Follows (opened mode code) self (lists stack.old n) result (lists stack.new n) }
    {
        let frame = Open {
            code,
            start: self.cursor,
        };
        frames::push(stack, self.height, frame);
        Machine {
            mode,
            height: self.height + 1,
            ..self
        }
    }

    // Both: a node that is still open.
    pub fn opened_node(
        self,
        stack: &mut [Open],
        nodes: &mut [u8],
        mode: Mode,
        code: u8,
        node: Node,
    ) -> Machine
        requires { Ready self (lists stack.old nodes.old) }
        ensures grows { Grows 1 1 self result }
        ensures follows { FollowsWithin (opened_node mode code node) self (lists stack.old nodes.old) result (lists stack.new nodes.new) }
    {
        self.opened(stack, mode, code)
            .with_node(nodes, self.cursor, node)
    }

    // An operator between two operands: its node goes before all of what was read.
    pub fn between(self, stack: &mut [Open], nodes: &mut [u8], mode: Mode, code: u8) -> Machine
        requires { Ready self (lists stack.old nodes.old) }
        ensures grows { Grows 1 1 self result }
        ensures follows { FollowsWithin (between mode code) self (lists stack.old nodes.old) result (lists stack.new nodes.new) }
    {
        let reach = frames::reach_of(code);
        let p = frames::pop(stack, reach, self.start, self.height);
        let frame = Open {
            code,
            start: p.start,
        };
        frames::push(stack, p.height, frame);
        let opened = Machine {
            mode,
            start: p.start,
            height: p.height + 1,
            ..self
        };
        opened.with_node(nodes, p.start, bare(code))
    }

    // The frame on top is complete, and is taken off.
    pub fn closed(self, stack: &[Open], mode: Mode) -> Machine
        requires { self.height ≤ length stack.now }
        ensures grows { Grows 0 0 self result }
        ensures follows { (n : List ℕ) → Follows (closed mode) self (lists stack.now n) result (lists stack.now n) }
    {
        let top = frames::top(stack, self.height);
        Machine {
            mode,
            start: top.start,
            height: self.height.saturating_sub(1),
            ..self
        }
    }

    // The frame on top goes on under another code.
    pub fn turned(self, stack: &mut [Open], mode: Mode, code: u8) -> Machine
        requires { (length stack.old ≡ 4096) × (self.height < 4096) }
        ensures grows { Grows 1 0 self result }
        ensures follows { (n : List ℕ) → Follows (turned mode code) self (lists stack.old n) result (lists stack.new n) }
    {
        let top = frames::top(stack, self.height);
        let below = self.height.saturating_sub(1);
        frames::push(stack, below, Open { code, ..top });
        Machine {
            mode,
            height: below + 1,
            ..self
        }
    }

    // The cursor goes behind the node of the frame on top.
    pub fn rewound(self, stack: &[Open]) -> Machine
        requires { self.height ≤ length stack.now }
        ensures grows { Grows 0 0 self result }
        ensures follows { (n : List ℕ) → FollowsWithin rewound self (lists stack.now n) result (lists stack.now n) }
    {
        let top = frames::top(stack, self.height);
        Machine {
            cursor: top.start.wrapping_add(1),
            ..self
        }
    }

    // Everything above the frame that is still to be closed is complete.
    pub fn settled(self, stack: &[Open]) -> Machine
        requires { self.height ≤ length stack.now }
        ensures grows { Grows 0 0 self result }
        ensures follows { (n : List ℕ) → Follows reduced self (lists stack.now n) result (lists stack.now n) }
    {
        let p = frames::pop(stack, 0, self.start, self.height);
        Machine {
            start: p.start,
            height: p.height,
            ..self
        }
    }

    // The node at p gets its delay, and the cursor goes behind all nodes.
    pub fn with_delay(self, nodes: &mut [u8], mode: Mode, p: u16, d: u8) -> Machine
        requires { length nodes.old ≡ 800 }
        ensures grows { Grows 0 0 self result }
        ensures follows { (s : List Open) → Follows (with_delay mode p d) self (lists s nodes.old) result (lists s nodes.new) }
    {
        crate::nodes::set_delay(nodes, p, self.count, d);
        Machine {
            mode,
            start: p,
            cursor: self.count,
            ..self
        }
    }
}
