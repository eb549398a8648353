// Nodes as parts of the tree. A missing child, or one of the wrong sort, stands for a constant 0 or for ok, as in model/Program;
// so the walk asks nothing of a program but its array of subtree ends.
ghost use Rattle.std.specs.Prelude.{◌≡◌, ◌<◌, ◌≤◌, MatchOption};
ghost use Rattle.model.specs.Program.{node_at, node_count};
ghost use Rattle.compiler.specs.Nodes.{ExprNode, StmtNode};

use model::Node;
use model::sizes::NODE;

// Node i, if the program has it.
fn node(program: &[u8], i: usize) -> Option<Node>
    ensures { MatchOption result (node_count program.now ≤ i) (λ a. (i < node_count program.now) × (a ≡ node_at program.now i)) }
{
    if i < program.len() / NODE {
        Some(program::nodes::read_node(program, i))
    } else {
        None
    }
}

// The node of the expression at node i.
pub fn expr_node(program: &[u8], i: usize) -> Node
    ensures { ExprNode program.now i result }
{
    match node(program, i) {
        Some(a) if a.kind < 16 => a,
        _ => Node {
            kind: 1,
            delay: 0,
            n: 0,
        },
    }
}

// The node of the statement at node i.
pub fn stmt_node(program: &[u8], i: usize) -> Node
    ensures { StmtNode program.now i result }
{
    match node(program, i) {
        Some(a) if 16 <= a.kind => a,
        _ => Node {
            kind: 16,
            delay: 0,
            n: 0,
        },
    }
}
