// The nodes, four bytes each, as long as they are at most 200: a longer program is refused for its length, and its nodes are only counted.
// Contracts say what the list keeps of the nodes (`Keeps`, specs/Shown); that it has 800 bytes is program_of's requires, and so each contract's.
// Widening casts are `as`, with which proofs compute.
ghost use Rattle.std.specs.Prelude.{◌≡◌, ◌+◌, ◌≤◌, List, length};
ghost use Rattle.std.specs.List.{copy_within};
ghost use Rattle.model.specs.declared.Node.{Node};
ghost use Rattle.model.specs.Program.{node};
ghost use Rattle.model.specs.Reader.{insert_at, with_node_delay};
ghost use Rattle.text.specs.Shown.{Keeps};

use model::Node;

// The node of this kind, without a delay or a number.
pub fn bare(kind: u8) -> Node
    ensures { result ≡ node kind 0 0 }
{
    Node {
        kind,
        delay: 0,
        n: 0,
    }
}

// What stands from a to e moves four bytes on. Byte by byte: the slice's own copy_within asks for memmove, where the archive for C asks for memcpy and memset
// alone.
fn shift(nodes: &mut [u8], a: usize, e: usize)
    requires { (a ≤ e) × (e + 4 ≤ length nodes.old) }
    ensures { nodes.new ≡ copy_within nodes.old a e (a + 4) }
{
    for i in (a..e).rev() {
        nodes[i + 4] = nodes[i];
    }
}

// A node more, before node `at`, or behind all nodes.
pub fn insert_node(nodes: &mut [u8], at: u16, count: u16, node: Node)
    requires { length nodes.old ≡ 800 }
    ensures { (ns : List Node) → count ≡ length ns → Keeps nodes.old ns → Keeps nodes.new (insert_at at node ns) }
{
    if 200 <= count {
        return;
    }
    let a = 4 * (at.min(count) as usize);
    shift(nodes, a, 4 * (count as usize));
    nodes[a] = node.kind;
    nodes[a + 1] = node.delay;
    word::put16(nodes, a + 2, node.n);
}

// Node `at`, if there is one, gets a delay.
pub fn set_delay(nodes: &mut [u8], at: u16, count: u16, d: u8)
    requires { length nodes.old ≡ 800 }
    ensures { (ns : List Node) → count ≡ length ns → Keeps nodes.old ns → Keeps nodes.new (with_node_delay at d ns) }
{
    if count <= at {
        return;
    }
    if 200 < count {
        return;
    }
    nodes[4 * (at as usize) + 1] = d;
}
