// The functional compiler: from the bytes of a program to its functional netlist file, in a lent buffer.
// The cells are first put into the end of the file's own room, one after another, and from there into its blocks: a cell's place in the file is never
// past its place in that list. Contracts cite model/FunctionalCalls.
#![tactic(auto)]

ghost use Rattle.model.specs.Refusals.{Accepted};
ghost use Rattle.std.specs.Prelude.{◌≡◌, ◌++◌, ◌+◌, ◌*◌, ◌≤◌, length, drop};
ghost use Rattle.std.proofs.lemmas.List.Edits.{sets};
ghost use Rattle.model.specs.Circuit.{cell};
ghost use Rattle.model.specs.NetlistFile.{cell_limit, cells_at, in_list, blocks_for, file_of};
ghost use Rattle.model.specs.Numbering.{head_cells};
ghost use Rattle.model.specs.Functional.{sixteen, idle_arrays, start_wires, netlist_of, finish_of};
ghost use Rattle.model.specs.Calls.{overwrite};
ghost use Rattle.model.specs.FunctionalCalls.{check_functional_call, statement_of, functional_file, compile_functional_call};
ghost use Rattle.compiler.specs.Writes.{write};
ghost use Rattle.functional.specs.Sets.{Agrees};
ghost use Rattle.functional.specs.Walk.{plain_at, plain_file, plain_count, Main};

mod sets; // sets of variables, and wires
mod rows; // a cell for each variable of a set
mod counts; // what is written, and how many cells
mod walk; // the cells of a statement

use crate::rows::Row;
use crate::sets::ALL;
use crate::walk::Place;
use model::sizes::{BLOCK, CELL};
use model::{Options, Refusal, Written, refuse};
use netlist::cells::Layout;
use program::nodes::Tree;

// The head, the memories, which keep the start words, and the arrays' cells, which stand.
fn put_head(cells: &mut [u8])
    requires { 162 ≤ length cells.old }
    ensures { cells.new ≡ write 0 (head_cells ++ (sixteen (λ x. cell 40 0 1 2) ++ idle_arrays 0 4)) cells.old }
{
    let clocks = [1u16; 20];
    let words = [2u16; 20];
    compiler::whole::put_head(cells);
    compiler::ors::put_memories(cells, &clocks, &words, 3);
    compiler::ors::put_arrays(cells, &clocks, &words, &words, 19);
}

// The wires of the memories.
fn start_wires() -> sets::Wires
    ensures { Agrees result.of start_wires }
{
    sets::placed(ALL, 3, sets::same(0))
}

// The netlist of an accepted program, whose statement is at node 0, as a list of cells; answers its finish.
fn put_netlist(cells: &mut [u8], tree: &Tree<'_>) -> u16
    requires { Main tree.now.program.now tree.now.ends.now × (length cells.old ≡ 6 * plain_count tree.now.program.now) }
    ensures cells { cells.new ≡ write 0 (netlist_of (plain_at tree.now.program.now 0)) cells.old }
    ensures finish { result ≡ finish_of (plain_at tree.now.program.now 0) }
{
    put_head(cells);
    let at = Place {
        wire: 0,
        cell: 27,
        words: start_wires(),
    };
    let end = walk::put_stmt(cells, tree, 0, at);
    let words = end.words;
    let last = Row {
        kind: 7,
        a: words,
        b: sets::same(2),
    };
    rows::put_each(cells, ALL, last, end.cell);
    end.wire
}

// Puts the file of n cells in, which stand in it one after another from byte `from` on. There is no heap: a list beside the file, as
// netlist::blocks::put_file asks for, would be of the most that any program has.
fn put_in_place(d: &mut [u8], from: usize, n: usize, finish: u16)
    requires { (n ≤ cell_limit) × (from + 6 * n ≡ 512 * blocks_for n) × (512 * blocks_for n ≤ length d.old) }
    ensures { d.new ≡ sets d.old 0 (file_of 1 (cells_at in_list (drop from d.old) 0 n) finish) }
{
    let mut sum: u16 = 0;
    for k in 0..n {
        let c = netlist::cells::cell_at(&d[from..], Layout::InList, k);
        sum = netlist::blocks::put_next(d, k, n, 0, finish, c, sum);
    }
}

// Puts the file of an accepted program's netlist of n cells in; answers its finish.
fn put_file(file: &mut [u8], tree: &Tree<'_>, n: usize) -> u16
    requires { Main tree.now.program.now tree.now.ends.now × (n ≡ plain_count tree.now.program.now) × (512 * blocks_for n ≤ length file.old) }
    ensures lent { file.new ≡ overwrite (plain_file tree.now.program.now) file.old }
    ensures finish { result ≡ finish_of (plain_at tree.now.program.now 0) }
{
    let count = BLOCK * netlist::blocks::blocks_for(n);
    let from = count - CELL * n;
    let finish = put_netlist(&mut file[from..count], tree);
    put_in_place(file, from, n, finish);
    finish
}

// How many cells the netlist of an accepted program has: 27 before those of its statement, and the last sixteen.
fn count_main(tree: &Tree<'_>) -> usize
    requires { Main tree.now.program.now tree.now.ends.now }
    ensures cells { result ≡ plain_count tree.now.program.now }
    ensures few { result ≤ 7043 }
{
    43 + usize::from(counts::count_stmt(tree, 0))
}

// How many cells the functional netlist of an accepted program has; its file takes 512 bytes for every 84 of them.
pub fn count_cells(options: Options, program: &[u8]) -> usize
    requires { check_functional_call options program.now ≡ Accepted }
    ensures { result ≡ length (netlist_of (statement_of program.now)) }
{
    let told = program::scan_functional(options, program).unwrap();
    let tree = Tree {
        program,
        ends: &told.ends,
    };
    count_main(&tree)
}

// Writes the functional netlist file of an accepted program into a buffer that is long enough; answers its length.
pub fn compile_accepted(options: Options, program: &[u8], file: &mut [u8]) -> usize
    requires { (check_functional_call options program.now ≡ Accepted) × (length (functional_file program.now) ≤ length file.old) }
    ensures length { result ≡ length (functional_file program.now) }
    ensures lent { file.new ≡ overwrite (functional_file program.now) file.old }
{
    compile(options, program, file).unwrap().count
}

// Compiles a program into a functional netlist: refusals 19 to 21, 1 to 6, 28, 22, 24, 7, 25 and 8, and 14.
pub fn compile(options: Options, program: &[u8], file: &mut [u8]) -> Result<Written, Refusal>
    ensures answer { result ≡ (compile_functional_call options program.now file.old).answer }
    ensures lent { file.new ≡ (compile_functional_call options program.now file.old).lent }
{
    let told = program::scan_functional(options, program)?;
    let tree = Tree {
        program,
        ends: &told.ends,
    };
    let n = count_main(&tree);
    let count = BLOCK * netlist::blocks::blocks_for(n);
    if file.len() < count {
        return refuse(14, 0);
    }
    let finish = put_file(file, &tree, n);
    Ok(Written { count, finish })
}
