// The public calls. None has a requires; each contract is one equation for the answer and one for each lent list at exit, with model/Calls.
// A call that checks a program takes first what is given beside it: `defaults`, or what a table, a number of procedures and a
// pulse length are loaded as.
#![tactic(auto)]

ghost use Rattle.std.specs.Prelude.{◌≡◌, MatchOption};
ghost use Rattle.model.specs.TimeTables.{built_in, given, given_if, beside, load, defaults};
ghost use Rattle.model.specs.Calls.{check_call, compile_call, write_call, read_call, begin_call, continue_call, start_call, run_netlist_call, run_program_call, reference_call};
ghost use Rattle.model.specs.FunctionalCalls.{check_functional_call, compile_functional_call, reference_functional_call, begin_functional_call, continue_functional_call, start_functional_call, run_functional_call, run_functional_program_call};
ghost use Rattle.model.specs.Gates.{slow_run_call};
ghost use Rattle.model.specs.TextCalls.{read_text_call, compile_text_call, run_text_call};
ghost use Rattle.model.specs.PartCalls.{parts_in, join_call};

mod full; // the full run of a program
mod kinds; // the two kinds of circuit
mod texts; // compiling and running a text

use crate::kinds::{Functional, Imperative};
use model::{Answer, Checked, Format, Options, Refusal, Written};

// What stands for 'nothing given' beside a program.
pub fn defaults() -> Options
    ensures { result ≡ defaults }
{
    program::tables::defaults()
}

// What a table of operator times, a number of procedures and a pulse length are loaded as: refusals 27 and 19 to 21, which the calls tell; that a
// number of procedures above 8 is 1 they find themselves. Without a table the built-in times serve.
#[tactic(auto, unfolding(model::specs::TimeTables::load))]
pub fn load(table: Option<&[u8]>, procedures: usize, pulse: u8) -> Options
    ensures { MatchOption table.entry (result ≡ load (beside built_in procedures pulse)) (λ file. result ≡ load (beside (given file.now) procedures pulse)) }
{
    match table {
        Some(file) => program::tables::load(file, procedures, pulse),
        None => Options {
            procedures,
            pulse,
            ..program::tables::defaults()
        },
    }
}

// The same for callers that have no Option, as C: a flag tells whether the table is given.
pub fn load_if(timed: bool, table: &[u8], procedures: usize, pulse: u8) -> Options
    ensures { result ≡ load (beside (given_if timed table.now) procedures pulse) }
{
    program::tables::load_if(timed, table, procedures, pulse)
}

pub fn check(options: Options, program: &[u8]) -> Checked
    ensures { result ≡ check_call options program.now }
{
    program::check(options, program)
}

// The program's netlist file, into a lent buffer.
pub fn compile(options: Options, program: &[u8], file: &mut [u8]) -> Result<Written, Refusal>
    ensures answer { result ≡ (compile_call options program.now file.old).answer }
    ensures lent { file.new ≡ (compile_call options program.now file.old).lent }
{
    compiler::compile(options, program, file)
}

// The netlist file of a sequence of programs, joined from these programs and their netlist files, into a lent buffer. Of the options the table serves.
pub fn join(
    options: Options,
    lengths: &[u32],
    pulses: &[u8],
    parts: &[u8],
    file: &mut [u8],
) -> Result<Written, Refusal>
    ensures answer { result ≡ (join_call options (parts_in lengths.now pulses.now parts.now) file.old).answer }
    ensures lent { file.new ≡ (join_call options (parts_in lengths.now pulses.now parts.now) file.old).lent }
{
    joiner::join(options, lengths, pulses, parts, file)
}

pub fn write_netlist(
    pulse: u8,
    cells: &[u8],
    finish: u16,
    file: &mut [u8],
) -> Result<Written, Refusal>
    ensures answer { result ≡ (write_call pulse cells.now finish file.old).answer }
    ensures lent { file.new ≡ (write_call pulse cells.now finish file.old).lent }
{
    netlist::write_netlist(pulse, cells, finish, file)
}

pub fn read_netlist(file: &[u8], cells: &mut [u8]) -> Result<Written, Refusal>
    ensures answer { result ≡ (read_call file.now cells.old).answer }
    ensures lent { cells.new ≡ (read_call file.now cells.old).lent }
{
    netlist::read_netlist(file, cells)
}

// The netlist's instant 0, from 544 bytes of start words, into a full or a compact state.
pub fn begin(format: Format, netlist: &[u8], words: &[u8], state: &mut [u8]) -> Answer
    ensures answer { result ≡ (begin_call format netlist.now words.now state.old).answer }
    ensures lent { state.new ≡ (begin_call format netlist.now words.now state.old).lent }
{
    simulator::begin(format, netlist, words, state)
}

// Further instants, until the finish is high or n are done. Refusal 26 leaves a compact state at its last good instant.
pub fn continue_by(format: Format, netlist: &[u8], state: &mut [u8], n: u32) -> Answer
    ensures answer { result ≡ (continue_call format netlist.now n state.old).answer }
    ensures lent { state.new ≡ (continue_call format netlist.now n state.old).lent }
{
    simulator::continue_by(format, netlist, state, n)
}

// One further instant with a start pulse, while nothing is in flight; with pulses of more than one instant the finish is low too.
pub fn start(format: Format, netlist: &[u8], state: &mut [u8]) -> Answer
    ensures answer { result ≡ (start_call format netlist.now state.old).answer }
    ensures lent { state.new ≡ (start_call format netlist.now state.old).lent }
{
    simulator::start(format, netlist, state)
}

// A beginning, and a continuing by the budget unless the finish was high.
pub fn run_netlist(netlist: &[u8], words: &[u8], budget: u32, state: &mut [u8]) -> Answer
    ensures answer { result ≡ (run_netlist_call netlist.now words.now budget state.old).answer }
    ensures lent { state.new ≡ (run_netlist_call netlist.now words.now budget state.old).lent }
{
    simulator::run_netlist(netlist, words, budget, state)
}

// A compiling and a full run of what it wrote, in two lent buffers.
pub fn run_program(
    options: Options,
    program: &[u8],
    words: &[u8],
    budget: u32,
    netlist: &mut [u8],
    state: &mut [u8],
) -> Answer
    ensures answer { result ≡ (run_program_call options program.now words.now budget netlist.old state.old).answer }
    ensures netlist { netlist.new ≡ (run_program_call options program.now words.now budget netlist.old state.old).netlist }
    ensures state { state.new ≡ (run_program_call options program.now words.now budget netlist.old state.old).state }
{
    full::run::<Imperative>(options, program, words, budget, netlist, state)
}

// A second full run, in which operators take their time, with pulses of one instant: every cell's value at its last instant into a lent buffer; the other is
// to work in.
pub fn slow_run(
    options: Options,
    program: &[u8],
    words: &[u8],
    budget: u32,
    values: &mut [u8],
    work: &mut [u8],
) -> Answer
    ensures answer { result ≡ (slow_run_call options program.now words.now budget values.old work.old).answer }
    ensures values { values.new ≡ (slow_run_call options program.now words.now budget values.old work.old).values }
    ensures work { work.new ≡ (slow_run_call options program.now words.now budget values.old work.old).work }
{
    slow::calls::slow_run(options, program, words, budget, values, work)
}

// The program by its own rules, without a circuit.
pub fn reference_run(options: Options, program: &[u8], words: &[u8], budget: u32) -> Answer
    ensures { result ≡ reference_call options program.now words.now budget }
{
    rules::reference_run(options, program, words, budget)
}

// The program that a text stands for, into a lent buffer.
pub fn read_text(options: Options, source: &[u8], program: &mut [u8]) -> Result<Written, Refusal>
    ensures answer { result ≡ (read_text_call options source.now program.old).answer }
    ensures lent { program.new ≡ (read_text_call options source.now program.old).lent }
{
    text::read_text(options, source, program)
}

// The netlist file of a text's program.
pub fn compile_text(options: Options, source: &[u8], file: &mut [u8]) -> Result<Written, Refusal>
    ensures answer { result ≡ (compile_text_call options source.now file.old).answer }
    ensures lent { file.new ≡ (compile_text_call options source.now file.old).lent }
{
    texts::compile(options, source, file)
}

// A full run of a text's program.
pub fn run_text(
    options: Options,
    source: &[u8],
    words: &[u8],
    budget: u32,
    netlist: &mut [u8],
    state: &mut [u8],
) -> Answer
    ensures answer { result ≡ (run_text_call options source.now words.now budget netlist.old state.old).answer }
    ensures netlist { netlist.new ≡ (run_text_call options source.now words.now budget netlist.old state.old).netlist }
    ensures state { state.new ≡ (run_text_call options source.now words.now budget netlist.old state.old).state }
{
    texts::run(options, source, words, budget, netlist, state)
}

// Functional circuits --------------------------------------------------------------------------------------------------------------------
// Of what is given beside a program the table alone counts.
// Each call has a name of its own, which documents and other crates cite; the runs of both kinds are one trait where they are used (exports, Runs).

pub fn check_functional(options: Options, program: &[u8]) -> Checked
    ensures { result ≡ check_functional_call options program.now }
{
    program::check_functional(options, program)
}

// The file of the program's functional netlist, into a lent buffer.
pub fn compile_functional(
    options: Options,
    program: &[u8],
    file: &mut [u8],
) -> Result<Written, Refusal>
    ensures answer { result ≡ (compile_functional_call options program.now file.old).answer }
    ensures lent { file.new ≡ (compile_functional_call options program.now file.old).lent }
{
    functional::compile(options, program, file)
}

// The program by its own rules, with the times of a functional circuit.
pub fn reference_functional(options: Options, program: &[u8], words: &[u8], budget: u32) -> Answer
    ensures { result ≡ reference_functional_call options program.now words.now budget }
{
    rules::reference_functional(options, program, words, budget)
}

// As the calls above, on a netlist whose last sixteen cells carry the last words, which the answer shows.
pub fn begin_functional(format: Format, netlist: &[u8], words: &[u8], state: &mut [u8]) -> Answer
    ensures answer { result ≡ (begin_functional_call format netlist.now words.now state.old).answer }
    ensures lent { state.new ≡ (begin_functional_call format netlist.now words.now state.old).lent }
{
    functional_runs::begin(format, netlist, words, state)
}

pub fn continue_functional(format: Format, netlist: &[u8], state: &mut [u8], n: u32) -> Answer
    ensures answer { result ≡ (continue_functional_call format netlist.now n state.old).answer }
    ensures lent { state.new ≡ (continue_functional_call format netlist.now n state.old).lent }
{
    functional_runs::continue_by(format, netlist, state, n)
}

pub fn start_functional(format: Format, netlist: &[u8], state: &mut [u8]) -> Answer
    ensures answer { result ≡ (start_functional_call format netlist.now state.old).answer }
    ensures lent { state.new ≡ (start_functional_call format netlist.now state.old).lent }
{
    functional_runs::start(format, netlist, state)
}

pub fn run_functional(netlist: &[u8], words: &[u8], budget: u32, state: &mut [u8]) -> Answer
    ensures answer { result ≡ (run_functional_call netlist.now words.now budget state.old).answer }
    ensures lent { state.new ≡ (run_functional_call netlist.now words.now budget state.old).lent }
{
    functional_runs::run_netlist(netlist, words, budget, state)
}

// A compiling and a full run of what it wrote, in two lent buffers.
pub fn run_functional_program(
    options: Options,
    program: &[u8],
    words: &[u8],
    budget: u32,
    netlist: &mut [u8],
    state: &mut [u8],
) -> Answer
    ensures answer { result ≡ (run_functional_program_call options program.now words.now budget netlist.old state.old).answer }
    ensures netlist { netlist.new ≡ (run_functional_program_call options program.now words.now budget netlist.old state.old).netlist }
    ensures state { state.new ≡ (run_functional_program_call options program.now words.now budget netlist.old state.old).state }
{
    full::run::<Functional>(options, program, words, budget, netlist, state)
}
