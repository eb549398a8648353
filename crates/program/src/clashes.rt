// What one side of a parallel node may not do beside the other, itself or through calls: refusals 25 and 8.
// What a statement does is said in specs/Uses, and what clashes in specs/Roots.
ghost use Rattle.std.specs.Prelude.{◌≡◌, ◌<◌, false, ℕ, get_or};
ghost use Rattle.model.specs.Refusals.{first_fault};
ghost use Rattle.model.specs.Word.{pick};
ghost use Rattle.model.specs.Program.{node_at, node_count, stmt_at, preorder, program_of};
ghost use Rattle.program.specs.Uses.{names, marked, any_marked, has, carried, Side};
ghost use Rattle.program.specs.Roots.{Rooted, mark_of, crossing, clashes, clash_fault};

use crate::nodes::{self, Tree};
use model::sizes::NODE;
use model::{Checked, Node, refuse};

// What a node or a statement may do: write a variable, read or write it, or call a procedure; array n is variable 16 + n.
#[derive(Clone, Copy)]
enum Mark {
    Writes(u16),
    Touches(u16),
    Calls(u16),
}

// A node of this kind and with this number does it by itself.
fn names(kind: u8, n: u16, mark: Mark) -> bool
    ensures { result ≡ names mark kind n }
{
    let variable = kind == 18;
    let array = kind == 24;
    match mark {
        Mark::Writes(x) => (variable & (x == n)) | (array & (x as u32 == 16 + n as u32)),
        Mark::Touches(x) => {
            let here = (variable | (kind == 2)) & (x == n);
            here | ((array | (kind == 10)) & (x as u32 == 16 + n as u32))
        }
        Mark::Calls(q) => (kind == 27) & (q == n),
    }
}

// By itself or by a body that it calls.
fn marked(node: Node, mark: Mark, bodies: &[bool]) -> bool
    ensures { result ≡ marked mark (λ p. get_or bodies.now p false) node }
{
    let called = bodies.get(node.n as usize).copied().unwrap_or(false);
    names(node.kind, node.n, mark) | ((node.kind == 27) & called)
}

// A node of the statement at node i does it. Nodes are counted: over the pieces of `subtree` the search is built as three loops of more branches, and takes
// up to 1.7 times as long.
fn uses(tree: &Tree<'_>, i: usize, mark: Mark, bodies: &[bool]) -> bool
    requires { Side tree.now.program.now tree.now.ends.now i }
    ensures { result ≡ any_marked mark (λ p. get_or bodies.now p false) (preorder (stmt_at tree.now.program.now i)) }
{
    for k in i..tree.next(i) {
        if marked(nodes::read_node(tree.program, k), mark, bodies) {
            return true;
        }
    }
    false
}

// Which bodies do it: each by those before it, so the list is read as a whole while its entries are written, by number.
fn bodies_with(tree: &Tree<'_>, procedures: usize, mark: Mark) -> [bool; 8]
    requires { Rooted procedures tree.now.program.now tree.now.ends.now }
    ensures { (p : ℕ) → get_or result p false ≡ carried (program_of 1 procedures tree.now.program.now).bodies mark p }
{
    let mut bodies = [false; 8];
    for p in 0..procedures {
        let at = tree.skip(0, p);
        bodies[p] = uses(tree, at, mark, &bodies);
    }
    bodies
}

// The statement at node i does it, itself or through calls.
fn does(tree: &Tree<'_>, procedures: usize, i: usize, mark: Mark) -> bool
    requires { Rooted procedures tree.now.program.now tree.now.ends.now × Side tree.now.program.now tree.now.ends.now i }
    ensures { result ≡ has (program_of 1 procedures tree.now.program.now).bodies mark (stmt_at tree.now.program.now i) }
{
    let bodies = bodies_with(tree, procedures, mark);
    uses(tree, i, mark, &bodies)
}

// What one side of a parallel node may not do beside the other: where `shared` is set both call procedure x, else one writes variable x and the
// other reads or writes it. The two are flags, here and below, since definitions `mark_of`, `crossing` and `clash_fault` take them as such.
fn mark_of(shared: bool, touch: bool, x: u16) -> Mark
    ensures { result ≡ mark_of shared touch x }
{
    if shared {
        return Mark::Calls(x);
    }
    if touch {
        Mark::Touches(x)
    } else {
        Mark::Writes(x)
    }
}

// How many x there are.
fn most_of(shared: bool, procedures: usize) -> usize
    ensures { result ≡ pick shared procedures 20 }
{
    if shared { procedures } else { 20 }
}

fn clash_number(shared: bool) -> u8
    ensures { result ≡ pick shared 25 8 }
{
    if shared { 25 } else { 8 }
}

// The statement at node p does the one thing with x, and that at node q the other.
fn crosses(tree: &Tree<'_>, procedures: usize, p: usize, q: usize, shared: bool, x: u16) -> bool
    requires { Rooted procedures tree.now.program.now tree.now.ends.now × Side tree.now.program.now tree.now.ends.now p × Side tree.now.program.now tree.now.ends.now q }
    ensures { result ≡ crossing (program_of 1 procedures tree.now.program.now).bodies shared (stmt_at tree.now.program.now p) (stmt_at tree.now.program.now q) x }
{
    does(tree, procedures, p, mark_of(shared, false, x))
        && does(tree, procedures, q, mark_of(shared, true, x))
}

// Refusal 8 or, where `shared` is set, 25: parallel nodes in node order, and for each the variables and arrays, or the procedures. The labelled loops
// are left at the first clash, whose node is told after them, so the node is counted by hand.
pub fn first_clash(tree: &Tree<'_>, procedures: usize, shared: bool) -> Checked
    requires { Rooted procedures tree.now.program.now tree.now.ends.now }
    ensures { result ≡ first_fault (clash_fault (program_of 1 procedures tree.now.program.now).bodies shared tree.now.program.now) 0 (node_count tree.now.program.now) }
{
    let count = tree.program.len() / NODE;
    let most = most_of(shared, procedures);
    let mut i: usize = 0;
    'nodes: while i < count {
        let node = nodes::read_node(tree.program, i);
        if node.kind == 20 {
            let second = tree.next(i + 1);
            for x in 0..most {
                let n = x as u16;
                if crosses(tree, procedures, i + 1, second, shared, n)
                    | crosses(tree, procedures, second, i + 1, shared, n)
                {
                    break 'nodes;
                }
            }
            i += 1;
        } else {
            i += 1;
        }
    }
    if i < count {
        return refuse(clash_number(shared), i);
    }
    Ok(())
}
