// What the reader does at a token: a function for each mode, as in model/Reader.
// Contracts: whatever reader is shown at entry, at exit the one is shown that has read the token (`FollowsWithin`, specs/Shown).
ghost use Rattle.std.specs.Prelude.{◌≡◌, ℕ, ◌<◌, ◌≤◌, ◌&&◌, List, length, ◌==◌};
ghost use Rattle.model.specs.Reader.{Reader, pop, top_code, comparison, broken, on_statement, on_operand, on_after_operand, on_after_statement, on_delay, on_body, step_of, step, is_broken, complete};
ghost use Rattle.text.specs.declared.frames.Open.{Open};
ghost use Rattle.text.specs.Shown.{frames_in, Lists, lists, Shows, Ready, Grows, Follows, FollowsWithin, limit_of};

use crate::frames::{self, Open};
use crate::machine::Machine;
use crate::nodes::bare;
use model::Node;
use model::texts::{Mode, Token};

fn broken(m: Machine) -> Machine
    ensures grows { Grows 0 0 m result }
    ensures follows { (l : Lists) → Follows broken m l result l }
{
    m.in_mode(Mode::Broken)
}

// A statement is expected.
fn on_statement(stack: &mut [Open], nodes: &mut [u8], m: Machine, t: Token) -> Machine
    requires { Ready m (lists stack.old nodes.old) }
    ensures grows { Grows 1 1 m result }
    ensures follows { FollowsWithin (on_statement t) m (lists stack.old nodes.old) result (lists stack.new nodes.new) }
{
    let c = t.code;
    match c {
        16 => m.leaf(nodes, Mode::AfterStatement, bare(16)),
        17 => m.leaf(nodes, Mode::Ticks, bare(17)),
        2 => {
            let node = Node {
                kind: 18,
                delay: 0,
                n: t.value,
            };
            m.opened_node(stack, nodes, Mode::Becomes, 18, node)
        }
        21 | 22 => m.opened_node(stack, nodes, Mode::Operand, c, bare(c)),
        23 => m.opened_node(stack, nodes, Mode::Statement, 23, bare(23)),
        40 => m.opened(stack, Mode::Statement, 40),
        _ => broken(m),
    }
}

// An expression, or the rest of one, is expected.
fn on_operand(stack: &mut [Open], nodes: &mut [u8], m: Machine, t: Token) -> Machine
    requires { Ready m (lists stack.old nodes.old) }
    ensures grows { Grows 1 1 m result }
    ensures follows { FollowsWithin (on_operand t) m (lists stack.old nodes.old) result (lists stack.new nodes.new) }
{
    let c = t.code;
    match c {
        1 | 2 => {
            let node = Node {
                kind: c,
                delay: 0,
                n: t.value,
            };
            m.leaf(nodes, Mode::AfterOperand, node)
        }
        3 => m.opened_node(stack, nodes, Mode::Operand, 3, bare(3)),
        38 => m.opened(stack, Mode::Operand, 38),
        _ => broken(m),
    }
}

// Whether a comparison comes after one: "one = or < that doesn't chain".
fn is_chained(stack: &[Open], m: Machine, c: u8) -> bool
    requires { m.height ≤ length stack.now }
    ensures { (n : List ℕ) (r : Reader) → Shows r m (lists stack.now n) → result ≡ comparison c && comparison (top_code (pop 7 r.start r.frames).frames) }
{
    let p = frames::pop(stack, 7, m.start, m.height);
    let top = frames::top(stack, p.height).code;
    ((c == 8) | (c == 9)) & ((top == 8) | (top == 9))
}

// An operand was read.
fn on_after_operand(stack: &mut [Open], nodes: &mut [u8], m: Machine, t: Token) -> Machine
    requires { Ready m (lists stack.old nodes.old) }
    ensures grows { Grows 1 1 m result }
    ensures follows { FollowsWithin (on_after_operand t) m (lists stack.old nodes.old) result (lists stack.new nodes.new) }
{
    let c = t.code;
    if (4 <= c) & (c <= 9) {
        if is_chained(stack, m, c) {
            return broken(m);
        }
        return m.between(stack, nodes, Mode::Operand, c);
    }
    let s = m.settled(stack);
    let top = frames::top(stack, s.height).code;
    if (c == 39) & (top == 38) {
        return s.closed(stack, Mode::AfterOperand);
    }
    if (c == 37) & (((top == 18) | (top == 21)) | ((top == 22) | (top == 35))) {
        return s.in_mode(Mode::Delay);
    }
    broken(m)
}

// A statement was read.
fn on_after_statement(stack: &mut [Open], nodes: &mut [u8], m: Machine, t: Token) -> Machine
    requires { Ready m (lists stack.old nodes.old) }
    ensures grows { Grows 1 1 m result }
    ensures follows { FollowsWithin (on_after_statement t) m (lists stack.old nodes.old) result (lists stack.new nodes.new) }
{
    let c = t.code;
    if (c == 19) | (c == 20) {
        return m.between(stack, nodes, Mode::Statement, c);
    }
    let s = m.settled(stack);
    let top = frames::top(stack, s.height).code;
    if (c == 41) & (top == 40) {
        return s.closed(stack, Mode::AfterStatement);
    }
    if (c == 33) & (top == 32) {
        return s.turned(stack, Mode::Statement, 33);
    }
    if (c == 36) & ((top == 33) | (top == 34)) {
        return s.closed(stack, Mode::AfterStatement);
    }
    if (c == 35) & (top == 23) {
        let u = s.rewound(stack);
        return u.turned(stack, Mode::Operand, 35);
    }
    broken(m)
}

// `:=` is expected.
fn on_becomes(m: Machine, t: Token) -> Machine
    ensures grows { Grows 0 0 m result }
    ensures follows { (l : Lists) → Follows (step_of Mode.Becomes t) m l result l }
{
    if t.code == 18 {
        return m.in_mode(Mode::Operand);
    }
    broken(m)
}

// The number of a tick is expected.
fn on_ticks(nodes: &mut [u8], m: Machine, t: Token) -> Machine
    requires { (length nodes.old ≡ 800) × (t.value ≤ 255) }
    ensures grows { Grows 0 0 m result }
    ensures follows { (s : List Open) → Follows (step_of Mode.Ticks t) m (lists s nodes.old) result (lists s nodes.new) }
{
    if t.code == 1 {
        return m.with_delay(nodes, Mode::AfterStatement, m.start, t.value as u8);
    }
    broken(m)
}

// The delay of what is open is expected.
fn on_delay(stack: &[Open], nodes: &mut [u8], m: Machine, t: Token) -> Machine
    requires { (m.height ≤ length stack.now) × (length nodes.old ≡ 800) × (t.value ≤ 255) }
    ensures grows { Grows 0 0 m result }
    ensures follows { Follows (on_delay t) m (lists stack.now nodes.old) result (lists stack.now nodes.new) }
{
    if t.code != 1 {
        return broken(m);
    }
    let top = frames::top(stack, m.height);
    let w = m.with_delay(nodes, Mode::Body, top.start, t.value as u8);
    if top.code == 18 {
        return w.closed(stack, Mode::AfterStatement);
    }
    w
}

// The word after a condition and its delay is expected.
fn on_body(stack: &mut [Open], m: Machine, t: Token) -> Machine
    requires { (length stack.old ≡ 4096) × (m.height < 4096) }
    ensures grows { Grows 1 0 m result }
    ensures follows { (n : List ℕ) → Follows (on_body t) m (lists stack.old n) result (lists stack.new n) }
{
    let c = t.code;
    let top = frames::top(stack, m.height).code;
    if (c == 32) & (top == 21) {
        return m.turned(stack, Mode::Statement, 32);
    }
    if (c == 34) & (top == 22) {
        return m.turned(stack, Mode::Statement, 34);
    }
    if (c == 36) & (top == 35) {
        return m.closed(stack, Mode::AfterStatement);
    }
    broken(m)
}

// Reads a token.
pub fn step(stack: &mut [Open], nodes: &mut [u8], m: Machine, t: Token) -> Machine
    requires { Ready m (lists stack.old nodes.old) × (t.value ≤ limit_of m.mode) }
    ensures grows { Grows 1 1 m result }
    ensures follows { FollowsWithin (step t) m (lists stack.old nodes.old) result (lists stack.new nodes.new) }
{
    match m.mode {
        Mode::Statement => on_statement(stack, nodes, m, t),
        Mode::AfterStatement => on_after_statement(stack, nodes, m, t),
        Mode::Operand => on_operand(stack, nodes, m, t),
        Mode::AfterOperand => on_after_operand(stack, nodes, m, t),
        Mode::Becomes => on_becomes(m, t),
        Mode::Ticks => on_ticks(nodes, m, t),
        Mode::Delay => on_delay(stack, nodes, m, t),
        Mode::Body => on_body(stack, m, t),
        Mode::Broken => m,
    }
}

// Whether the grammar is broken.
#[tactic(auto, unfolding(model::specs::Reader::is_broken))]
pub fn is_broken(m: Machine) -> bool
    ensures { result ≡ is_broken m.mode }
{
    matches!(m.mode, Mode::Broken)
}

// Whether nothing but complete operators is on the stack.
fn is_empty(stack: &[Open], height: usize) -> bool
    requires { height ≤ length stack.now }
    ensures { result ≡ (length (pop 0 0 (frames_in stack.now height)).frames == 0) }
{
    frames::pop(stack, 0, 0, height).height == 0
}

// Whether a whole statement was read, and nothing is open.
#[tactic(auto, unfolding(model::specs::Reader::complete))]
pub fn is_complete(stack: &[Open], m: Machine) -> bool
    requires { m.height ≤ length stack.now }
    ensures { result ≡ complete m.mode (frames_in stack.now m.height) }
{
    match m.mode {
        Mode::AfterStatement => is_empty(stack, m.height),
        _ => false,
    }
}
