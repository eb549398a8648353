// What a statement writes, and how many cells it takes. A call, a loop, an exit and an element are refused (28): none of them comes here.
// Kinds are the numbers of the published bytes.
ghost use Rattle.std.specs.Prelude.{◌≡◌, ◌≤◌};
ghost use Rattle.model.specs.Program.{seq, ite, while};
ghost use Rattle.model.specs.Numbering.{expr_count};
ghost use Rattle.model.specs.Functional.{branches, count};
ghost use Rattle.laws.specs.Program.Fit.{BasicExpr, Basic};
ghost use Rattle.compiler.specs.Nodes.{IsLaid, expr_in, stmt_in};
ghost use Rattle.functional.specs.Sets.{Tells};
ghost use Rattle.functional.specs.Walk.{plainly, plain_at, Writes};

use program::nodes::Tree;

// The set of the variables that the statement at node i writes.
pub fn written(tree: &Tree<'_>, i: usize) -> u16
    requires { IsLaid tree.now × Basic (stmt_in tree.now i) }
    ensures { Writes tree.now.program.now i result }
{
    let node = compiler::nodes::stmt_node(tree.program, i);
    let kind = node.kind;
    if kind < 18 {
        return 0;
    }
    if kind == 18 {
        return crate::sets::single(node.n);
    }
    let i1 = i + 1;
    let i2 = tree.next(i1);
    if 22 <= kind {
        return written(tree, i2);
    }
    if kind == 21 {
        let i3 = tree.next(i2);
        let then = written(tree, i2);
        let other = written(tree, i3);
        return then | other;
    }
    let p = written(tree, i1);
    let q = written(tree, i2);
    p | q
}

// The set of the variables that one of two statements writes.
pub fn both(tree: &Tree<'_>, first: usize, second: usize) -> u16
    requires { IsLaid tree.now × Basic (stmt_in tree.now first) × Basic (stmt_in tree.now second) }
    ensures { Tells result (branches (plain_at tree.now.program.now first) (plain_at tree.now.program.now second)) }
{
    let p = written(tree, first);
    let q = written(tree, second);
    p | q
}

// How many cells the expression at node i takes.
pub fn count_expr(tree: &Tree<'_>, i: usize) -> u16
    requires { IsLaid tree.now × BasicExpr (expr_in tree.now i) × (expr_count (expr_in tree.now i) ≤ 7000) }
    ensures { result ≡ expr_count (expr_in tree.now i) }
{
    let node = compiler::nodes::expr_node(tree.program, i);
    let kind = node.kind;
    if kind == 1 {
        return 1;
    }
    if kind == 2 {
        return 0;
    }
    let first = i + 1;
    if kind == 3 {
        return count_expr(tree, first) + 1;
    }
    let second = tree.next(first);
    let e = count_expr(tree, first);
    let f = count_expr(tree, second);
    e + f + 1
}

// How many cells the statement at node i takes.
#[cycle(count_if_count_loop_count_stmt_count_two)]
pub fn count_stmt(tree: &Tree<'_>, i: usize) -> u16
    requires { IsLaid tree.now × Basic (stmt_in tree.now i) × (count (plain_at tree.now.program.now i) ≤ 7000) }
    ensures { result ≡ count (plain_at tree.now.program.now i) }
{
    let node = compiler::nodes::stmt_node(tree.program, i);
    let kind = node.kind;
    if kind == 16 {
        return 0;
    }
    if kind == 17 {
        return 1;
    }
    let i1 = i + 1;
    if kind == 18 {
        return count_expr(tree, i1) + 1;
    }
    let i2 = tree.next(i1);
    if kind == 19 {
        return count_two(tree, i1, i2);
    }
    if kind == 20 {
        return count_two(tree, i1, i2) + 1;
    }
    if kind == 21 {
        let i3 = tree.next(i2);
        return count_if(tree, i1, i2, i3, node.delay);
    }
    count_loop(tree, i1, i2)
}

#[cycle(count_if_count_loop_count_stmt_count_two)]
fn count_two(tree: &Tree<'_>, first: usize, second: usize) -> u16
    requires { IsLaid tree.now × Basic (seq (stmt_in tree.now first) (stmt_in tree.now second)) × (count (plainly (seq (stmt_in tree.now first) (stmt_in tree.now second))) ≤ 7000) × (first ≤ second) }
    ensures { result ≡ count (plainly (seq (stmt_in tree.now first) (stmt_in tree.now second))) }
{
    let p = count_stmt(tree, first);
    let q = count_stmt(tree, second);
    p + q
}

// An if: its expression, its delay unless that is 0, 36, 37, the branches, 35, three masks, and three cells for each variable that is written.
#[cycle(count_if_count_loop_count_stmt_count_two)]
fn count_if(tree: &Tree<'_>, first: usize, second: usize, third: usize, delay: u8) -> u16
    requires { IsLaid tree.now × Basic (ite delay (expr_in tree.now first) (stmt_in tree.now second) (stmt_in tree.now third)) × (count (plainly (ite delay (expr_in tree.now first) (stmt_in tree.now second) (stmt_in tree.now third))) ≤ 7000) × (second ≤ third) }
    ensures { result ≡ count (plainly (ite delay (expr_in tree.now first) (stmt_in tree.now second) (stmt_in tree.now third))) }
{
    let e = count_expr(tree, first);
    let own: u16 = if delay == 0 { 0 } else { 1 };
    let parts = count_two(tree, second, third);
    let set = both(tree, second, third);
    e + own + parts + 6 + 3 * crate::sets::many(set)
}

// A while or a repeat: its expression, two delays, 36, 37, 35, its body, and four cells for each variable that is written.
#[cycle(count_if_count_loop_count_stmt_count_two)]
fn count_loop(tree: &Tree<'_>, first: usize, second: usize) -> u16
    requires { IsLaid tree.now × Basic (while 1 (expr_in tree.now first) (stmt_in tree.now second)) × (count (plainly (while 1 (expr_in tree.now first) (stmt_in tree.now second))) ≤ 7000) }
    ensures { result ≡ count (plainly (while 1 (expr_in tree.now first) (stmt_in tree.now second))) }
{
    let e = count_expr(tree, first);
    let body = count_stmt(tree, second);
    let set = written(tree, second);
    e + body + 5 + 4 * crate::sets::many(set)
}
