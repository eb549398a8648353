// The compiler: from the bytes of a program to its published netlist file, in a lent buffer.
// The cells are first put into a list of cells, six bytes each, and then into the blocks of the file. Contracts cite model/Calls.
#![tactic(auto)]

ghost use Rattle.model.specs.Refusals.{Accepted};
ghost use Rattle.std.specs.Prelude.{◌≡◌, ◌≤◌, length};
ghost use Rattle.model.specs.ProgramChecks.{program_with};
ghost use Rattle.model.specs.Numbering.{netlist};
ghost use Rattle.model.specs.Calls.{overwrite, check_call, compiled_file, compile_call};
ghost use Rattle.compiler.specs.Whole.{Made};

pub mod nodes; // nodes as parts of the tree
pub mod words; // where words come from
pub mod chain; // wires joined one after another
pub mod walk; // delay cells and walk cells
pub mod ors; // ors and memories
pub mod whole; // the whole netlist

use crate::whole::Netlist;
use model::sizes::COMPILED_MOST;
use model::{Options, Refusal, Written};

// How many cells the netlist of an accepted program has; its file takes 512 bytes for every 84 of them.
pub fn count_cells(options: Options, program: &[u8]) -> usize
    requires { check_call options program.now ≡ Accepted }
    ensures { result ≡ length (netlist (program_with options program.now)) }
{
    let mut cells = [0u8; COMPILED_MOST];
    let made = list_accepted(options, program, &mut cells);
    usize::from(made.count)
}

// The cells of an accepted program's netlist, six bytes each, into a list of their most.
pub fn list_accepted(options: Options, program: &[u8], cells: &mut [u8]) -> Netlist
    requires { (check_call options program.now ≡ Accepted) × (length cells.old ≡ 3762) }
    ensures { Made (program_with options program.now) cells.new result }
{
    let told = program::scan(options, program).unwrap();
    whole::put_netlist(
        cells,
        program,
        &told.ends,
        options.procedures,
        options.pulse,
    )
}

// Writes the netlist file of an accepted program into a buffer that is long enough; answers its length.
pub fn compile_accepted(options: Options, program: &[u8], netlist: &mut [u8]) -> usize
    requires { (check_call options program.now ≡ Accepted) × (length (compiled_file options program.now) ≤ length netlist.old) }
    ensures length { result ≡ length (compiled_file options program.now) }
    ensures lent { netlist.new ≡ overwrite (compiled_file options program.now) netlist.old }
{
    compile(options, program, netlist).unwrap().count
}

// Compiles a program: refusals 27, 19 to 21, 1 to 8, 22, 24 and 25, and 14.
pub fn compile(options: Options, program: &[u8], netlist: &mut [u8]) -> Result<Written, Refusal>
    ensures answer { result ≡ (compile_call options program.now netlist.old).answer }
    ensures lent { netlist.new ≡ (compile_call options program.now netlist.old).lent }
{
    let told = program::scan(options, program)?;
    let mut cells = [0u8; COMPILED_MOST];
    let made = whole::put_netlist(
        &mut cells,
        program,
        &told.ends,
        options.procedures,
        options.pulse,
    );
    netlist::write_file(
        netlist,
        &cells,
        usize::from(made.count),
        u16::from(options.pulse),
        made.finish,
    )
}
