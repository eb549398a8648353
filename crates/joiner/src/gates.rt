// What the cells of kind 41 of a part are for, told by its nodes.
ghost use Rattle.std.specs.Prelude.{◌≡◌, length};
ghost use Rattle.std.proofs.lemmas.List.Edits.{sets};
ghost use Rattle.model.specs.Program.{nodes_at};
ghost use Rattle.laws.specs.Program.Passed.{Readable};
ghost use Rattle.joiner.specs.Gates.{gates_in};

use model::sizes::NODE;

// Of each assignment its variable; of each element assignment its array as a variable, and then 20 for its index. Answers how many they are: of a
// node none, one or two, so that they are counted by themselves. Numbers, as the marks have them (compiler::ors): a mark is a variable, an array being one of 16 to 19,
// and an index has none of its own.
pub fn put_gates(gates: &mut [u16], program: &[u8]) -> usize
    requires { (length gates.old ≡ 400) × Readable 0 program.now }
    ensures count { result ≡ length (gates_in (nodes_at program.now 0)) }
    ensures put { gates.new ≡ sets gates.old 0 (gates_in (nodes_at program.now 0)) }
{
    let mut next: usize = 0;
    for bytes in program.chunks_exact(NODE) {
        let node = program::nodes::read_node(bytes, 0);
        match node.kind {
            18 => {
                gates[next] = node.n;
                next += 1;
            }
            24 => {
                gates[next] = 16 + node.n;
                gates[next + 1] = 20;
                next += 2;
            }
            _ => {}
        }
    }
    next
}
