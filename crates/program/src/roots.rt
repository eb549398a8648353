// What is refused in each root, body or main program: an exit that has no loop to leave, 22, and a call of a procedure that is not before it, 24.
// Each contract is an equation with model/ProgramChecks; `root_fault`, which is either of the two, is in specs/Roots.
ghost use Rattle.std.specs.Prelude.{◌≡◌};
ghost use Rattle.model.specs.Program.{stmt_at, program_of, roots};
ghost use Rattle.model.specs.ProgramChecks.{loose_in, late_in, in_roots};
ghost use Rattle.program.specs.Uses.{Side};
ghost use Rattle.program.specs.Roots.{Rooted, root_fault};

use crate::nodes::{self, Tree};
use model::sizes::NODE;
use model::{Checked, refuse};

// Refusal 22: the first exit in the statement at node i with no loop around it, or with a parallel node between it and that loop;
// `inside`, the flag of definition `loose_in`, tells whether a loop is around node i with no parallel node between.
fn first_loose(tree: &Tree<'_>, i: usize, inside: bool) -> Checked
    requires { Side tree.now.program.now tree.now.ends.now i }
    ensures { result ≡ loose_in inside (stmt_at tree.now.program.now i) i }
{
    let node = nodes::read_node(tree.program, i);
    let kind = node.kind;
    if kind == 26 {
        return if inside { Ok(()) } else { refuse(22, i) };
    }
    if kind == 25 {
        return first_loose(tree, i + 1, true);
    }
    if (kind < 19) | ((kind == 24) | (kind == 27)) {
        return Ok(());
    }
    let second = tree.next(i + 1);
    if 21 < kind {
        return first_loose(tree, second, inside);
    }
    let p = if kind == 21 { second } else { i + 1 };
    let within = inside & (kind != 20);
    first_loose(tree, p, within)?;
    first_loose(tree, tree.next(p), within)
}

// Refusal 24 in root r, the statement at node i, which may call the procedures below r.
fn first_late(tree: &Tree<'_>, i: usize, r: usize) -> Checked
    requires { Side tree.now.program.now tree.now.ends.now i }
    ensures { result ≡ late_in r (stmt_at tree.now.program.now i) i }
{
    for (k, bytes) in tree.subtree(i).chunks_exact(NODE).enumerate() {
        let node = nodes::read_node(bytes, 0);
        if (node.kind == 27) & (r <= node.n as usize) {
            return refuse(24, i + k);
        }
    }
    Ok(())
}

// Refusal 22 or, where the flag is set, 24 in root r, the statement at node i. It is a flag, since definition `root_fault` of specs/Roots takes one.
fn root_fault(tree: &Tree<'_>, i: usize, r: usize, late: bool) -> Checked
    requires { Side tree.now.program.now tree.now.ends.now i }
    ensures { result ≡ root_fault late r (stmt_at tree.now.program.now i) i }
{
    if late {
        return first_late(tree, i, r);
    }
    first_loose(tree, i, false)
}

// In all roots, by their numbers, which 24 compares with that of a call; `skip` finds each from the first node on, as definition `roots` does.
pub fn first_in_roots(tree: &Tree<'_>, procedures: usize, late: bool) -> Checked
    requires { Rooted procedures tree.now.program.now tree.now.ends.now }
    ensures { result ≡ in_roots (root_fault late) 0 (roots (program_of 1 procedures tree.now.program.now)) 0 }
{
    for r in 0..procedures + 1 {
        root_fault(tree, tree.skip(0, r), r, late)?;
    }
    Ok(())
}
