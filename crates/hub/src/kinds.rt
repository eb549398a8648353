// The two kinds of circuit.
ghost use Rattle.model.specs.declared.Format.TheVariants.{Full};
ghost use Rattle.model.specs.Calls.{check_call, compiled_file, run_program_call};
ghost use Rattle.model.specs.FunctionalCalls.{check_functional_call, functional_file, run_functional_program_call};
ghost use Rattle.functional_runs.specs.Modes.{with_last};
ghost use Rattle.hub.specs.Circuits.{compiled_imperative, tells_imperative, compiled_functional, tells_functional};

use crate::full::Circuit;
use model::{Answer, Checked, Format, Options};

pub struct Imperative;

impl Circuit for Imperative {
    ghost checked = { check_call };

    ghost made = { compiled_file };

    ghost told = { λ made answer state. answer };

    ghost called = { run_program_call };

    ghost compiled = { compiled_imperative };

    ghost tells = { tells_imperative };

    // Refusals 27, 19 to 21, 1 to 8, 22, 24 and 25.
    fn check(options: Options, program: &[u8]) -> Checked {
        program::check(options, program)
    }

    fn count_cells(options: Options, program: &[u8]) -> usize {
        compiler::count_cells(options, program)
    }

    fn compile(options: Options, program: &[u8], netlist: &mut [u8]) -> usize {
        compiler::compile_accepted(options, program, netlist)
    }

    fn tell(_netlist: &[u8], answer: Answer, _state: &[u8]) -> Answer {
        answer
    }
}

// Its last sixteen cells carry the last words, which the answer shows.
pub struct Functional;

impl Circuit for Functional {
    ghost checked = { check_functional_call };

    ghost made = { λ options program. functional_file program };

    ghost told = { with_last Full };

    ghost called = { run_functional_program_call };

    ghost compiled = { compiled_functional };

    ghost tells = { tells_functional };

    // Refusals 19 to 21, 1 to 6, 28, 22, 24, 7, 25 and 8.
    fn check(options: Options, program: &[u8]) -> Checked {
        program::check_functional(options, program)
    }

    fn count_cells(options: Options, program: &[u8]) -> usize {
        functional::count_cells(options, program)
    }

    fn compile(options: Options, program: &[u8], netlist: &mut [u8]) -> usize {
        functional::compile_accepted(options, program, netlist)
    }

    fn tell(netlist: &[u8], answer: Answer, state: &[u8]) -> Answer {
        functional_runs::with_last(Format::Full, netlist, answer, state)
    }
}
