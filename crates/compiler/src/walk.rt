// The walk: the delay cells and the walk cells of a statement, put into a list of cells.
// What a function leaves is an equation of writes: `write k cs s` is the list s with the cells cs put in from cell k on.
// `outs` has the starts of the exits that wait. Kinds are numbers, those of the published bytes of nodes and cells.
ghost use Rattle.std.specs.Prelude.{◌≡◌, [], ◌∷◌, ℕ, ◌+◌, ◌*◌, ◌<◌, ◌≤◌, ◌⊎◌, length};
ghost use Rattle.std.proofs.lemmas.List.Edits.{sets};
ghost use Rattle.model.specs.Circuit.{cell};
ghost use Rattle.model.specs.Numbering.{Wires};
ghost use Rattle.model.specs.Program.{assign, assign_elem, seq, par, ite, while, repeat, loop, exit};
ghost use Rattle.laws.specs.Program.Fit.{BasicExpr};
ghost use Rattle.compiler.specs.Nodes.{IsLaid, expr_in, stmt_in};
ghost use Rattle.compiler.specs.Writes.{write};
ghost use Rattle.compiler.specs.Walk.{word, place, ExprReady, ExprDone, Owned, SwitchReady, Switched, Ready, finish_in, Done, Opened, waiting, ExitsReady, ExitsJoined};

use crate::chain::Chain;
use crate::words::{Memories, Words};
use model::sizes::CELL;
use model::{Cell, Node};
use program::nodes::Tree;

// A wire, an expression's, the pulse that an if switches or what wires were joined to, and the next cell.
#[derive(Clone, Copy)]
pub struct Word {
    pub wire: u16,
    pub cell: u16,
}

// Where the walk is: the wire that starts a statement or has just finished one, the next delay cell, the next walk cell, the next free entry of
// the marks, and how many exits wait for the end of their loop. There is no heap: the marks and the exits lie in lists of a fixed size.
#[derive(Clone, Copy)]
pub struct Place {
    pub wire: u16,
    pub delay: u16,
    pub cell: u16,
    pub mark: usize,
    pub out: usize,
}

// What the walk is to know: the program, the memories of the netlist around it, the length of a pulse, and the finish of each body that has
// been walked, for the calls of it. That the tree is laid is said in each contract: as a field's fact it would have to be shown a proposition, which
// was tried and did not close.
#[derive(Clone, Copy)]
pub struct Known<'a> {
    pub tree: Tree<'a>,
    pub words: Memories,
    pub pulse: u8,
    pub finishes: [u16; 9],
}

// What an assignment's ors join: its variable, an array being one of 16 to 19, and its kind 41 cells, of the value and of an element's index.
// With its first delay cell, which comes second, these are its four marks.
#[derive(Clone, Copy)]
pub struct Assigned {
    pub variable: u16,
    pub data: u16,
    pub address: u16,
}

// A node, and where its children begin, as many as it has.
#[derive(Clone, Copy)]
pub struct Parent {
    pub node: Node,
    pub first: usize,
    pub second: usize,
    pub third: usize,
}

// Puts cell k in.
pub fn put(cells: &mut [u8], k: u16, kind: u8, delay: u8, a: u16, b: u16)
    requires { 6 * k + 6 ≤ length cells.old }
    ensures { cells.new ≡ write k (cell kind delay a b ∷ []) cells.old }
{
    let c = Cell { kind, delay, a, b };
    netlist::cells::put_cell(cells, CELL * usize::from(k), c, 0);
}

// Puts a word's cell in at k; it is the word's wire.
pub fn put_word(cells: &mut [u8], k: u16, kind: u8, a: u16, b: u16) -> Word
    requires { (k < 65535) × (6 * k + 6 ≤ length cells.old) }
    ensures cells { cells.new ≡ write k (cell kind 0 a b ∷ []) cells.old }
    ensures word { result ≡ word k (k + 1) }
{
    put(cells, k, kind, 0, a, b);
    Word {
        wire: k,
        cell: k + 1,
    }
}

// The cells of the expression at node i, from cell c on: children, then its cell; a variable is the wire that brings its word, and an element's a
// its array's.
pub fn put_expr<W: Words>(cells: &mut [u8], tree: &Tree<'_>, words: &W, i: usize, c: u16) -> Word
    requires { IsLaid tree.now × ExprReady (expr_in tree.now i) c (length cells.old) × (W.has_arrays words.now ⊎ BasicExpr (expr_in tree.now i)) }
    ensures { (ws : Wires) → W.come_on words.now ws → ExprDone ws (expr_in tree.now i) c cells.old cells.new result }
{
    let node = crate::nodes::expr_node(tree.program, i);
    let kind = node.kind;
    if kind == 1 {
        return put_word(cells, c, 1, node.n, 0);
    }
    if kind == 2 {
        return Word {
            wire: words.variable(node.n),
            cell: c,
        };
    }
    let first = i + 1;
    if kind == 3 {
        let e = put_expr(cells, tree, words, first, c);
        return put_word(cells, e.cell, 3, e.wire, 0);
    }
    if kind == 10 {
        let e = put_expr(cells, tree, words, first, c);
        return put_word(cells, e.cell, 44, words.array(node.n), e.wire);
    }
    let second = tree.next(first);
    let e = put_expr(cells, tree, words, first, c);
    let f = put_expr(cells, tree, words, second, e.cell);
    put_word(cells, f.cell, kind, e.wire, f.wire)
}

// An if's own delay cell, put in at k unless its delay is 0.
pub fn put_own(cells: &mut [u8], delay: u8, start: u16, k: u16) -> Word
    requires { (k < 65535) × (6 * k + 6 ≤ length cells.old) }
    ensures { Owned delay start k cells.old cells.new result }
{
    if delay == 0 {
        return Word {
            wire: start,
            cell: k,
        };
    }
    put(cells, k, 34, delay, start, 0);
    Word {
        wire: k,
        cell: k + 1,
    }
}

// A condition, and its 36 and 37; answers the 36.
pub fn put_switches<W: Words>(
    cells: &mut [u8],
    tree: &Tree<'_>,
    words: &W,
    i: usize,
    c: u16,
    pulse: u16,
) -> u16
    requires { IsLaid tree.now × SwitchReady (expr_in tree.now i) c (length cells.old) × (W.has_arrays words.now ⊎ BasicExpr (expr_in tree.now i)) }
    ensures { (ws : Wires) → W.come_on words.now ws → Switched ws (expr_in tree.now i) c pulse cells.old cells.new result }
{
    let e = put_expr(cells, tree, words, i, c);
    put(cells, e.cell, 36, 0, pulse, e.wire);
    put(cells, e.cell + 1, 37, 0, pulse, e.wire);
    e.cell
}

// A tick's delay cell, which is its finish. A functional netlist's is a function of its own: one for both would be longer, since their places differ.
fn put_tick(cells: &mut [u8], at: Place, delay: u8) -> Place
    requires { (at.delay < 627) × (6 * at.delay + 6 ≤ length cells.old) }
    ensures cells { cells.new ≡ write at.delay (cell 34 delay at.wire 0 ∷ []) cells.old }
    ensures place { result ≡ place at.delay (at.delay + 1) at.cell at.mark at.out }
{
    put(cells, at.delay, 34, delay, at.wire, 0);
    Place {
        wire: at.delay,
        delay: at.delay + 1,
        ..at
    }
}

// An assignment's delay cells, the second fed by the first, and its marks, where its walk has been put in.
fn put_delays(
    cells: &mut [u8],
    marks: &mut [u16; 800],
    at: Place,
    delay: u8,
    own: Assigned,
    pulse: u8,
) -> Place
    requires { (6 * (at.delay + 2) ≤ length cells.old) × (length cells.old ≤ 3762) × (at.mark + 4 ≤ 800) }
    ensures cells { cells.new ≡ write at.delay (cell 34 delay at.wire 0 ∷ cell 34 pulse at.delay 0 ∷ []) cells.old }
    ensures marks { marks.new ≡ sets marks.old at.mark (own.variable ∷ at.delay ∷ own.data ∷ own.address ∷ []) }
    ensures place { result ≡ place (at.delay + 1) (at.delay + 2) at.cell (at.mark + 4) at.out }
{
    put(cells, at.delay, 34, delay, at.wire, 0);
    put(cells, at.delay + 1, 34, pulse, at.delay, 0);
    let k = at.mark;
    marks[k..k + 4].copy_from_slice(&[own.variable, at.delay, own.data, own.address]);
    Place {
        wire: at.delay + 1,
        delay: at.delay + 2,
        mark: k + 4,
        ..at
    }
}

// Expression, kind 41 on the first delay. A variable has no address: its mark is 0, as in definition `marks_of`, which holds
// the four, and no ors read it, since those of addresses begin at variable 16.
fn put_assign(
    cells: &mut [u8],
    marks: &mut [u16; 800],
    known: &Known<'_>,
    parent: Parent,
    at: Place,
) -> Place
    requires { IsLaid known.now.tree × Ready known.now.words.first (assign parent.node.delay parent.node.n (expr_in known.now.tree parent.first)) at (length cells.old) }
    ensures { (F : ℕ → ℕ) → Done known.now.pulse known.now.words.first F (assign parent.node.delay parent.node.n (expr_in known.now.tree parent.first)) at cells.old cells.new marks.old marks.new result }
{
    let e = put_expr(cells, &known.tree, &known.words, parent.first, at.cell);
    put(cells, e.cell, 41, 0, at.delay, e.wire);
    let own = Assigned {
        variable: parent.node.n,
        data: e.cell,
        address: 0,
    };
    let walked = Place {
        cell: e.cell + 1,
        ..at
    };
    put_delays(cells, marks, walked, parent.node.delay, own, known.pulse)
}

// Index, value, then kind 41 of the value and of the index.
fn put_element(
    cells: &mut [u8],
    marks: &mut [u16; 800],
    known: &Known<'_>,
    parent: Parent,
    at: Place,
) -> Place
    requires { IsLaid known.now.tree × Ready known.now.words.first (assign_elem parent.node.delay parent.node.n (expr_in known.now.tree parent.first) (expr_in known.now.tree parent.second)) at (length cells.old) }
    ensures { (F : ℕ → ℕ) → Done known.now.pulse known.now.words.first F (assign_elem parent.node.delay parent.node.n (expr_in known.now.tree parent.first) (expr_in known.now.tree parent.second)) at cells.old cells.new marks.old marks.new result }
{
    let index = put_expr(cells, &known.tree, &known.words, parent.first, at.cell);
    let value = put_expr(cells, &known.tree, &known.words, parent.second, index.cell);
    let address = value.cell + 1;
    put(cells, value.cell, 41, 0, at.delay, value.wire);
    put(cells, address, 41, 0, at.delay, index.wire);
    let own = Assigned {
        variable: 16 + parent.node.n,
        data: value.cell,
        address,
    };
    let walked = Place {
        cell: address + 1,
        ..at
    };
    put_delays(cells, marks, walked, parent.node.delay, own, known.pulse)
}

// An exit's start waits for the end of its loop; its finish is ground.
fn put_exit(outs: &mut [u16; 200], at: Place) -> Place
    requires { (at.out + 1 ≤ 200) × (length outs.old ≡ 200) }
    ensures place { result ≡ place 1 at.delay at.cell at.mark (at.out + 1) }
    ensures outs { Opened exit at outs.old outs.new }
{
    let k = at.out;
    outs[k] = at.wire;
    Place {
        wire: 1,
        out: k + 1,
        ..at
    }
}

// Joins the starts of a loop's exits, which wait from entry first on and end before another, from cell n on.
fn put_exits(cells: &mut [u8], outs: &[u16; 200], first: usize, end: usize, n: u16) -> Word
    requires { ExitsReady outs.now first end n (length cells.old) }
    ensures { ExitsJoined n (waiting outs.now first end) cells.old cells.new result }
{
    let mut chain = Chain::new(35, n);
    for start in &outs[first..end] {
        chain.join(cells, *start);
    }
    chain.end(1)
}

// A call: its delay cell, kind 39 of that and the body's finish, which is the call's own, and its marks, of which the variable is 20 and the
// procedure.
fn put_call(
    cells: &mut [u8],
    marks: &mut [u16; 800],
    known: &Known<'_>,
    at: Place,
    node: Node,
) -> Place
    requires { (at.delay < at.cell) × (6 * at.cell + 6 ≤ length cells.old) × (length cells.old ≤ 3762) × (at.mark + 4 ≤ 800) × (node.n < 8) }
    ensures cells { cells.new ≡ write at.cell (cell 39 0 at.delay (finish_in known.now.finishes node.n) ∷ []) (write at.delay (cell 34 node.delay at.wire 0 ∷ []) cells.old) }
    ensures marks { marks.new ≡ sets marks.old at.mark ((20 + node.n) ∷ at.delay ∷ 0 ∷ 0 ∷ []) }
    ensures place { result ≡ place at.cell (at.delay + 1) (at.cell + 1) (at.mark + 4) at.out }
{
    let p = usize::from(node.n);
    put(cells, at.delay, 34, node.delay, at.wire, 0);
    put(cells, at.cell, 39, 0, at.delay, known.finishes[p]);
    let k = at.mark;
    marks[k..k + 4].copy_from_slice(&[20 + node.n, at.delay, 0, 0]);
    Place {
        wire: at.cell,
        delay: at.delay + 1,
        cell: at.cell + 1,
        mark: k + 4,
        ..at
    }
}

// The cells of the statement at node i, from a place on; answers the place after it, with the wire of its finish.
#[cycle(put_if_put_loop_put_par_put_repeat_put_seq_put_stmt_put_while)]
pub fn put_stmt(
    cells: &mut [u8],
    marks: &mut [u16; 800],
    outs: &mut [u16; 200],
    known: &Known<'_>,
    i: usize,
    at: Place,
) -> Place
    requires { IsLaid known.now.tree × Ready known.now.words.first (stmt_in known.now.tree i) at (length cells.old) × (length outs.old ≡ 200) }
    ensures done { Done known.now.pulse known.now.words.first (finish_in known.now.finishes) (stmt_in known.now.tree i) at cells.old cells.new marks.old marks.new result }
    ensures outs { Opened (stmt_in known.now.tree i) at outs.old outs.new }
{
    let node = crate::nodes::stmt_node(known.tree.program, i);
    let kind = node.kind;
    if kind == 16 {
        return at;
    }
    if kind == 17 {
        return put_tick(cells, at, node.delay);
    }
    let first = i + 1;
    let second = known.tree.next(first);
    let third = known.tree.next(second);
    let parent = Parent {
        node,
        first,
        second,
        third,
    };
    match kind {
        18 => put_assign(cells, marks, known, parent, at),
        19 => put_seq(cells, marks, outs, known, parent, at),
        20 => put_par(cells, marks, outs, known, parent, at),
        21 => put_if(cells, marks, outs, known, parent, at),
        22 => put_while(cells, marks, outs, known, parent, at),
        24 => put_element(cells, marks, known, parent, at),
        25 => put_loop(cells, marks, outs, known, parent, at),
        26 => put_exit(outs, at),
        27 => put_call(cells, marks, known, at, node),
        _ => put_repeat(cells, marks, outs, known, parent, at),
    }
}

// Q starts with P's finish. A functional netlist's has the same two calls, of another walk: one for both would have to be lent the walk.
#[cycle(put_if_put_loop_put_par_put_repeat_put_seq_put_stmt_put_while)]
fn put_seq(
    cells: &mut [u8],
    marks: &mut [u16; 800],
    outs: &mut [u16; 200],
    known: &Known<'_>,
    parent: Parent,
    at: Place,
) -> Place
    requires { IsLaid known.now.tree × Ready known.now.words.first (seq (stmt_in known.now.tree parent.first) (stmt_in known.now.tree parent.second)) at (length cells.old) × (parent.first ≤ parent.second) × (length outs.old ≡ 200) }
    ensures done { Done known.now.pulse known.now.words.first (finish_in known.now.finishes) (seq (stmt_in known.now.tree parent.first) (stmt_in known.now.tree parent.second)) at cells.old cells.new marks.old marks.new result }
    ensures outs { Opened (seq (stmt_in known.now.tree parent.first) (stmt_in known.now.tree parent.second)) at outs.old outs.new }
{
    let p = put_stmt(cells, marks, outs, known, parent.first, at);
    put_stmt(cells, marks, outs, known, parent.second, p)
}

// P, Q, 38. In a functional netlist the words of both are joined too, so it is not this function.
#[cycle(put_if_put_loop_put_par_put_repeat_put_seq_put_stmt_put_while)]
fn put_par(
    cells: &mut [u8],
    marks: &mut [u16; 800],
    outs: &mut [u16; 200],
    known: &Known<'_>,
    parent: Parent,
    at: Place,
) -> Place
    requires { IsLaid known.now.tree × Ready known.now.words.first (par (stmt_in known.now.tree parent.first) (stmt_in known.now.tree parent.second)) at (length cells.old) × (parent.first ≤ parent.second) × (length outs.old ≡ 200) }
    ensures done { Done known.now.pulse known.now.words.first (finish_in known.now.finishes) (par (stmt_in known.now.tree parent.first) (stmt_in known.now.tree parent.second)) at cells.old cells.new marks.old marks.new result }
    ensures outs { Opened (par (stmt_in known.now.tree parent.first) (stmt_in known.now.tree parent.second)) at outs.old outs.new }
{
    let p = put_stmt(cells, marks, outs, known, parent.first, at);
    let to = Place { wire: at.wire, ..p };
    let q = put_stmt(cells, marks, outs, known, parent.second, to);
    put(cells, q.cell, 38, 0, p.wire, q.wire);
    Place {
        wire: q.cell,
        cell: q.cell + 1,
        ..q
    }
}

// Expression, 36, 37, P, Q, 35 of the two finishes.
#[cycle(put_if_put_loop_put_par_put_repeat_put_seq_put_stmt_put_while)]
fn put_if(
    cells: &mut [u8],
    marks: &mut [u16; 800],
    outs: &mut [u16; 200],
    known: &Known<'_>,
    parent: Parent,
    at: Place,
) -> Place
    requires { IsLaid known.now.tree × Ready known.now.words.first (ite parent.node.delay (expr_in known.now.tree parent.first) (stmt_in known.now.tree parent.second) (stmt_in known.now.tree parent.third)) at (length cells.old) × (parent.second ≤ parent.third) × (length outs.old ≡ 200) }
    ensures done { Done known.now.pulse known.now.words.first (finish_in known.now.finishes) (ite parent.node.delay (expr_in known.now.tree parent.first) (stmt_in known.now.tree parent.second) (stmt_in known.now.tree parent.third)) at cells.old cells.new marks.old marks.new result }
    ensures outs { Opened (ite parent.node.delay (expr_in known.now.tree parent.first) (stmt_in known.now.tree parent.second) (stmt_in known.now.tree parent.third)) at outs.old outs.new }
{
    let own = put_own(cells, parent.node.delay, at.wire, at.delay);
    let switch = put_switches(
        cells,
        &known.tree,
        &known.words,
        parent.first,
        at.cell,
        own.wire,
    );
    let when_true = Place {
        wire: switch,
        delay: own.cell,
        cell: switch + 1 + 1,
        ..at
    };
    let p = put_stmt(cells, marks, outs, known, parent.second, when_true);
    let when_false = Place {
        wire: switch + 1,
        ..p
    };
    let q = put_stmt(cells, marks, outs, known, parent.third, when_false);
    put(cells, q.cell, 35, 0, p.wire, q.wire);
    Place {
        wire: q.cell,
        cell: q.cell + 1,
        ..q
    }
}

// Expression, 36 (starts P), 37 (finish), P, 35 of start and P's finish, which feeds the delay.
#[cycle(put_if_put_loop_put_par_put_repeat_put_seq_put_stmt_put_while)]
fn put_while(
    cells: &mut [u8],
    marks: &mut [u16; 800],
    outs: &mut [u16; 200],
    known: &Known<'_>,
    parent: Parent,
    at: Place,
) -> Place
    requires { IsLaid known.now.tree × Ready known.now.words.first (while parent.node.delay (expr_in known.now.tree parent.first) (stmt_in known.now.tree parent.second)) at (length cells.old) × (length outs.old ≡ 200) }
    ensures done { Done known.now.pulse known.now.words.first (finish_in known.now.finishes) (while parent.node.delay (expr_in known.now.tree parent.first) (stmt_in known.now.tree parent.second)) at cells.old cells.new marks.old marks.new result }
    ensures outs { Opened (while parent.node.delay (expr_in known.now.tree parent.first) (stmt_in known.now.tree parent.second)) at outs.old outs.new }
{
    let switch = put_switches(
        cells,
        &known.tree,
        &known.words,
        parent.first,
        at.cell,
        at.delay,
    );
    let body = Place {
        wire: switch,
        delay: at.delay + 1,
        cell: switch + 1 + 1,
        ..at
    };
    let p = put_stmt(cells, marks, outs, known, parent.second, body);
    put(cells, p.cell, 35, 0, at.wire, p.wire);
    put(cells, at.delay, 34, parent.node.delay, p.cell, 0);
    Place {
        wire: switch + 1,
        cell: p.cell + 1,
        ..p
    }
}

// Expression, 36 (finish), 37, 35 of start and that 37 (starts P), P, whose finish feeds the delay.
#[cycle(put_if_put_loop_put_par_put_repeat_put_seq_put_stmt_put_while)]
fn put_repeat(
    cells: &mut [u8],
    marks: &mut [u16; 800],
    outs: &mut [u16; 200],
    known: &Known<'_>,
    parent: Parent,
    at: Place,
) -> Place
    requires { IsLaid known.now.tree × Ready known.now.words.first (repeat parent.node.delay (expr_in known.now.tree parent.first) (stmt_in known.now.tree parent.second)) at (length cells.old) × (length outs.old ≡ 200) }
    ensures done { Done known.now.pulse known.now.words.first (finish_in known.now.finishes) (repeat parent.node.delay (expr_in known.now.tree parent.first) (stmt_in known.now.tree parent.second)) at cells.old cells.new marks.old marks.new result }
    ensures outs { Opened (repeat parent.node.delay (expr_in known.now.tree parent.first) (stmt_in known.now.tree parent.second)) at outs.old outs.new }
{
    let switch = put_switches(
        cells,
        &known.tree,
        &known.words,
        parent.first,
        at.cell,
        at.delay,
    );
    let start = switch + 1 + 1;
    put(cells, start, 35, 0, at.wire, switch + 1);
    let body = Place {
        wire: start,
        delay: at.delay + 1,
        cell: start + 1,
        ..at
    };
    let p = put_stmt(cells, marks, outs, known, parent.second, body);
    put(cells, at.delay, 34, parent.node.delay, p.wire, 0);
    Place { wire: switch, ..p }
}

// 35 of start and the delay (starts P), P, whose finish feeds the delay, then the starts of its exits joined by 35s.
#[cycle(put_if_put_loop_put_par_put_repeat_put_seq_put_stmt_put_while)]
fn put_loop(
    cells: &mut [u8],
    marks: &mut [u16; 800],
    outs: &mut [u16; 200],
    known: &Known<'_>,
    parent: Parent,
    at: Place,
) -> Place
    requires { IsLaid known.now.tree × Ready known.now.words.first (loop parent.node.delay (stmt_in known.now.tree parent.first)) at (length cells.old) × (length outs.old ≡ 200) }
    ensures done { Done known.now.pulse known.now.words.first (finish_in known.now.finishes) (loop parent.node.delay (stmt_in known.now.tree parent.first)) at cells.old cells.new marks.old marks.new result }
    ensures outs { Opened (loop parent.node.delay (stmt_in known.now.tree parent.first)) at outs.old outs.new }
{
    put(cells, at.cell, 35, 0, at.wire, at.delay);
    let body = Place {
        wire: at.cell,
        delay: at.delay + 1,
        cell: at.cell + 1,
        ..at
    };
    let round = put_stmt(cells, marks, outs, known, parent.first, body);
    put(cells, at.delay, 34, parent.node.delay, round.wire, 0);
    let joined = put_exits(cells, outs, at.out, round.out, round.cell);
    Place {
        wire: joined.wire,
        cell: joined.cell,
        out: at.out,
        ..round
    }
}
