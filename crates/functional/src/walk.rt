// The walk: the cells of a statement, put into a list of cells from a place on. What comes before a body and refers to cells behind it is put in
// after the body: how many cells stand there is known.
// The compiler's walk has the same kinds of statements: of each, what is put in and where differs, and places do. That the tree is laid each contract
// says, as in compiler::walk.
ghost use Rattle.std.specs.Prelude.{◌≡◌, [], ◌∷◌, ℕ, ◌+◌, ◌*◌, ◌<◌, ◌≤◌, length};
ghost use Rattle.model.specs.Circuit.{cell};
ghost use Rattle.model.specs.Program.{assign, seq, par, ite, while, repeat};
ghost use Rattle.compiler.specs.Nodes.{IsLaid, expr_in, stmt_in};
ghost use Rattle.compiler.specs.Writes.{write};
ghost use Rattle.functional.specs.Sets.{Agrees};
ghost use Rattle.functional.specs.Walk.{plainly, place, Ready, Done, EndReady, End, RoundReady, Round};

use crate::rows::Row;
use crate::sets::Wires;
use compiler::walk::{Parent, put, put_expr, put_own, put_switches};
use program::nodes::Tree;

// Where the walk is: the wire that starts a statement or has just finished one, the next cell, and the wires of the words.
#[derive(Clone, Copy)]
pub struct Place {
    pub wire: u16,
    pub cell: u16,
    pub words: Wires,
}

// A tick's delay cell, which is its finish: as the compiler's, on a place that is another.
fn put_tick(cells: &mut [u8], at: Place, delay: u8) -> Place
    requires { (at.cell < 7043) × (6 * at.cell + 6 ≤ length cells.old) }
    ensures cells { cells.new ≡ write at.cell (cell 34 delay at.wire 0 ∷ []) cells.old }
    ensures place { result ≡ place at.cell (at.cell + 1) at.words }
{
    put(cells, at.cell, 34, delay, at.wire, 0);
    Place {
        wire: at.cell,
        cell: at.cell + 1,
        ..at
    }
}

// An assignment: its expression, whose wire brings the word from now on, and its delay.
fn put_assign(cells: &mut [u8], tree: &Tree<'_>, parent: Parent, at: Place) -> Place
    requires { IsLaid tree.now × Ready (assign parent.node.delay parent.node.n (expr_in tree.now parent.first)) at.cell (length cells.old) }
    ensures { (us : ℕ → ℕ) → Agrees at.words.of us → Done (plainly (assign parent.node.delay parent.node.n (expr_in tree.now parent.first))) at us cells.old cells.new result }
{
    let ws = at.words;
    let e = put_expr(cells, tree, &ws, parent.first, at.cell);
    put(cells, e.cell, 34, parent.node.delay, at.wire, 0);
    Place {
        wire: e.cell,
        cell: e.cell + 1,
        words: crate::sets::replaced(parent.node.n, e.wire, ws),
    }
}

// The cells of the statement at node i, from a place on; answers the place after it, with the wire of its finish.
#[cycle(put_if_put_par_put_repeat_put_seq_put_stmt_put_while)]
pub fn put_stmt(cells: &mut [u8], tree: &Tree<'_>, i: usize, at: Place) -> Place
    requires { IsLaid tree.now × Ready (stmt_in tree.now i) at.cell (length cells.old) }
    ensures { (us : ℕ → ℕ) → Agrees at.words.of us → Done (plainly (stmt_in tree.now i)) at us cells.old cells.new result }
{
    let node = compiler::nodes::stmt_node(tree.program, i);
    let kind = node.kind;
    if kind == 16 {
        return at;
    }
    if kind == 17 {
        return put_tick(cells, at, node.delay);
    }
    let first = i + 1;
    let second = tree.next(first);
    let third = tree.next(second);
    let parent = Parent {
        node,
        first,
        second,
        third,
    };
    match kind {
        18 => put_assign(cells, tree, parent, at),
        19 => put_seq(cells, tree, parent, at),
        20 => put_par(cells, tree, parent, at),
        21 => put_if(cells, tree, parent, at),
        22 => put_while(cells, tree, parent, at),
        _ => put_repeat(cells, tree, parent, at),
    }
}

// Q starts with P's finish, and with the words that P hands on.
#[cycle(put_if_put_par_put_repeat_put_seq_put_stmt_put_while)]
fn put_seq(cells: &mut [u8], tree: &Tree<'_>, parent: Parent, at: Place) -> Place
    requires { IsLaid tree.now × Ready (seq (stmt_in tree.now parent.first) (stmt_in tree.now parent.second)) at.cell (length cells.old) × (parent.first ≤ parent.second) }
    ensures { (us : ℕ → ℕ) → Agrees at.words.of us → Done (plainly (seq (stmt_in tree.now parent.first) (stmt_in tree.now parent.second))) at us cells.old cells.new result }
{
    let p = put_stmt(cells, tree, parent.first, at);
    put_stmt(cells, tree, parent.second, p)
}

// P, Q, 38. Each side's words are those that it writes.
#[cycle(put_if_put_par_put_repeat_put_seq_put_stmt_put_while)]
fn put_par(cells: &mut [u8], tree: &Tree<'_>, parent: Parent, at: Place) -> Place
    requires { IsLaid tree.now × Ready (par (stmt_in tree.now parent.first) (stmt_in tree.now parent.second)) at.cell (length cells.old) × (parent.first ≤ parent.second) }
    ensures { (us : ℕ → ℕ) → Agrees at.words.of us → Done (plainly (par (stmt_in tree.now parent.first) (stmt_in tree.now parent.second))) at us cells.old cells.new result }
{
    let ws = at.words;
    let p = put_stmt(cells, tree, parent.first, at);
    let to = Place {
        wire: at.wire,
        cell: p.cell,
        words: ws,
    };
    let q = put_stmt(cells, tree, parent.second, to);
    put(cells, q.cell, 38, 0, p.wire, q.wire);
    let of_p = crate::counts::written(tree, parent.first);
    let of_q = crate::counts::written(tree, parent.second);
    let us = p.words;
    let vs = q.words;
    let right = crate::sets::chosen(of_q, vs, ws);
    Place {
        wire: q.cell,
        cell: q.cell + 1,
        words: crate::sets::chosen(of_p, us, right),
    }
}

// The masks of a condition's word, from cell k on: is it 0, all ones where it is, all ones where it is not.
fn put_masks(cells: &mut [u8], word: u16, k: u16)
    requires { (k + 3 ≤ 7043) × (6 * (k + 3) ≤ length cells.old) }
    ensures { cells.new ≡ write k (cell 8 0 word 2 ∷ cell 5 0 2 k ∷ cell 3 0 (k + 1) 0 ∷ []) cells.old }
{
    put(cells, k, 8, 0, word, 2);
    put(cells, k + 1, 5, 0, 2, k);
    put(cells, k + 2, 3, 0, k + 1, 0);
}

// What an if with a set has behind its branches, which end at p and q: the 35 of their finishes, the masks of its condition's word, and of each variable
// in the set both words, masked and joined. The other words come as before, on ws. Answers the place after it.
fn put_end(cells: &mut [u8], set: u16, word: u16, ws: Wires, p: Place, q: Place) -> Place
    requires { EndReady set q.cell (length cells.old) }
    ensures { End set word ws p q cells.old cells.new result }
{
    let m = q.cell;
    put(cells, m, 35, 0, p.wire, q.wire);
    put_masks(cells, word, m + 1);
    let us = p.words;
    let vs = q.words;
    let of_p = Row {
        kind: 6,
        a: us,
        b: crate::sets::same(m + 3),
    };
    let of_q = Row {
        kind: 6,
        a: vs,
        b: crate::sets::same(m + 2),
    };
    let n = crate::sets::many(set);
    let end = crate::rows::put_choices(cells, set, of_p, of_q, m + 4);
    Place {
        wire: m,
        cell: end,
        words: crate::sets::placed(set, m + 4 + n + n, ws),
    }
}

// Expression, delay, 36, 37, P, Q, and the end of both.
#[cycle(put_if_put_par_put_repeat_put_seq_put_stmt_put_while)]
fn put_if(cells: &mut [u8], tree: &Tree<'_>, parent: Parent, at: Place) -> Place
    requires { IsLaid tree.now × Ready (ite parent.node.delay (expr_in tree.now parent.first) (stmt_in tree.now parent.second) (stmt_in tree.now parent.third)) at.cell (length cells.old) × (parent.second ≤ parent.third) }
    ensures { (us : ℕ → ℕ) → Agrees at.words.of us → Done (plainly (ite parent.node.delay (expr_in tree.now parent.first) (stmt_in tree.now parent.second) (stmt_in tree.now parent.third))) at us cells.old cells.new result }
{
    let ws = at.words;
    let e = put_expr(cells, tree, &ws, parent.first, at.cell);
    let own = put_own(cells, parent.node.delay, at.wire, e.cell);
    let switch = own.cell;
    put(cells, switch, 36, 0, own.wire, e.wire);
    put(cells, switch + 1, 37, 0, own.wire, e.wire);
    let when_true = Place {
        wire: switch,
        cell: switch + 1 + 1,
        words: ws,
    };
    let p = put_stmt(cells, tree, parent.second, when_true);
    let when_false = Place {
        wire: switch + 1,
        cell: p.cell,
        words: ws,
    };
    let q = put_stmt(cells, tree, parent.third, when_false);
    let set = crate::counts::both(tree, parent.second, parent.third);
    put_end(cells, set, e.wire, ws, p, q)
}

// What a loop with the variables of a set has beside its body, where its 35 is at m and has the start and the wire of another round: its latches at c,
// the delay of 1 behind them, the 35, and of each variable the words that may be loaded, gated and joined. Answers the next cell.
fn put_round(cells: &mut [u8], set: u16, at: Place, again: u16, us: Wires, m: u16) -> u16
    requires { RoundReady set at m (length cells.old) }
    ensures { Round set at again us m cells.old cells.new result }
{
    let ws = at.words;
    let n = crate::sets::many(set);
    let joins = m + 1 + n + n;
    let latches = Row {
        kind: 45,
        a: crate::sets::same(m),
        b: crate::sets::placed(set, joins, ws),
    };
    crate::rows::put_each(cells, set, latches, at.cell);
    put(cells, at.cell + n, 34, 1, m, 0);
    put(cells, m, 35, 0, at.wire, again);
    let at_start = Row {
        kind: 41,
        a: crate::sets::same(at.wire),
        b: ws,
    };
    let at_round = Row {
        kind: 41,
        a: crate::sets::same(again),
        b: us,
    };
    crate::rows::put_choices(cells, set, at_start, at_round, m + 1)
}

// Latches, the delay of 1, that of d, expression, 36 (starts P), 37 (finish), P, 35 of start and P's finish, and the words to be loaded.
#[cycle(put_if_put_par_put_repeat_put_seq_put_stmt_put_while)]
fn put_while(cells: &mut [u8], tree: &Tree<'_>, parent: Parent, at: Place) -> Place
    requires { IsLaid tree.now × Ready (while parent.node.delay (expr_in tree.now parent.first) (stmt_in tree.now parent.second)) at.cell (length cells.old) }
    ensures { (us : ℕ → ℕ) → Agrees at.words.of us → Done (plainly (while parent.node.delay (expr_in tree.now parent.first) (stmt_in tree.now parent.second))) at us cells.old cells.new result }
{
    let ws = at.words;
    let set = crate::counts::written(tree, parent.second);
    let n = crate::sets::many(set);
    let latches = crate::sets::placed(set, at.cell, ws);
    let waits = at.cell + n;
    put(cells, waits + 1, 34, parent.node.delay, waits, 0);
    let switch = put_switches(cells, tree, &latches, parent.first, waits + 2, waits + 1);
    let body = Place {
        wire: switch,
        cell: switch + 1 + 1,
        words: latches,
    };
    let p = put_stmt(cells, tree, parent.second, body);
    let us = p.words;
    let end = put_round(cells, set, at, p.wire, us, p.cell);
    Place {
        wire: switch + 1,
        cell: end,
        words: latches,
    }
}

// Latches, the delay of 1, P, the delay of d, expression, 36 (finish), 37, 35 of start and that 37, and the words to be loaded.
#[cycle(put_if_put_par_put_repeat_put_seq_put_stmt_put_while)]
fn put_repeat(cells: &mut [u8], tree: &Tree<'_>, parent: Parent, at: Place) -> Place
    requires { IsLaid tree.now × Ready (repeat parent.node.delay (expr_in tree.now parent.first) (stmt_in tree.now parent.second)) at.cell (length cells.old) }
    ensures { (us : ℕ → ℕ) → Agrees at.words.of us → Done (plainly (repeat parent.node.delay (expr_in tree.now parent.first) (stmt_in tree.now parent.second))) at us cells.old cells.new result }
{
    let ws = at.words;
    let set = crate::counts::written(tree, parent.second);
    let n = crate::sets::many(set);
    let latches = crate::sets::placed(set, at.cell, ws);
    let waits = at.cell + n;
    let body = Place {
        wire: waits,
        cell: waits + 1,
        words: latches,
    };
    let p = put_stmt(cells, tree, parent.second, body);
    let us = p.words;
    put(cells, p.cell, 34, parent.node.delay, p.wire, 0);
    let switch = put_switches(cells, tree, &us, parent.first, p.cell + 1, p.cell);
    let end = put_round(cells, set, at, switch + 1, us, switch + 2);
    Place {
        wire: switch,
        cell: end,
        words: us,
    }
}
