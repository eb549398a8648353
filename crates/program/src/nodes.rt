// Nodes in bytes, and where subtrees end: `ends` has for each node the node after its subtree (specs/Ends).
// Root r, body r or the main program, begins behind r subtrees.
ghost use Rattle.std.specs.Prelude.{◌≡◌, ◌+◌, ◌*◌, ◌≤◌, ◌<◌, length};
ghost use Rattle.model.specs.Program.{node_at, node_count};
ghost use Rattle.program.specs.Ends.{past, skips};
ghost use Rattle.program.specs.Parts.{part};
ghost use Rattle.program.specs.Uses.{Side};

use model::Node;
use model::sizes::NODE;

// No From of four bytes: callers have a program and a number, and would cut the four out for it first.
pub fn read_node(program: &[u8], i: usize) -> Node
    requires { 4 * i + 3 < length program.now }
    ensures { result ≡ node_at program.now i }
{
    let at = NODE * i;
    Node {
        kind: program[at],
        delay: program[at + 1],
        n: word::get16(program, at + 2),
    }
}

// A program, and where the subtrees of its nodes end. That it is short is no ghost field: callers have it from `Rooted`, `Side` or `Laid`, which say more.
#[derive(Clone, Copy)]
pub struct Tree<'a> {
    pub program: &'a [u8],
    pub ends: &'a [usize; 200],
}

impl Tree<'_> {
    // The node after the subtree of node i; i itself where there is no node i, as definition `past` of specs/Ends has it for subtrees that follow.
    pub fn next(&self, i: usize) -> usize
        requires { length self.now.program.now < 804 }
        ensures { result ≡ past self.now.ends.now (node_count self.now.program.now) i }
    {
        if i < self.program.len() / NODE {
            self.ends[i]
        } else {
            i
        }
    }

    // The nodes of a statement, that of node i, in bytes.
    pub(crate) fn subtree(&self, i: usize) -> &[u8]
        requires { Side self.now.program.now self.now.ends.now i }
        ensures { result.now ≡ part self.now.program.now i (past self.now.ends.now (node_count self.now.program.now) i) }
    {
        &self.program[NODE * i..NODE * self.next(i)]
    }

    // The node after so many subtrees that begin at node `from`.
    pub fn skip(&self, from: usize, trees: usize) -> usize
        requires { length self.now.program.now < 804 }
        ensures { result ≡ skips self.now.ends.now (node_count self.now.program.now) trees from }
    {
        let mut at = from;
        for _ in 0..trees {
            at = self.next(at);
        }
        at
    }
}
