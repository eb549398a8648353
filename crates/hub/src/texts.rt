// Compiling and running a text: its program is read first, and then compiled or run as any program is.
ghost use Rattle.std.specs.Prelude.{◌≡◌};
ghost use Rattle.model.specs.TextCalls.{compile_text_call, run_text_call};

use crate::kinds::Imperative;
use model::sizes::PROGRAM_MOST;
use model::{Answer, Checked, Options, Refusal, Written};

// Refusals 27, 19 to 21, 17, 18, 1 to 8, 22, 24 and 25, 14.
pub fn compile(options: Options, source: &[u8], file: &mut [u8]) -> Result<Written, Refusal>
    ensures answer { result ≡ (compile_text_call options source.now file.old).answer }
    ensures lent { file.new ≡ (compile_text_call options source.now file.old).lent }
{
    program::tables::check_given(options)?;
    let mut program = [0u8; PROGRAM_MOST];
    let told = text::program_of(source, &mut program)?;
    compiler::compile(options, &program[..told.count], file)
}

// Refusals 27, 19 to 21, 17, 18, 1 to 8, 22, 24 and 25, 13, 14.
pub fn run(
    options: Options,
    source: &[u8],
    words: &[u8],
    budget: u32,
    netlist: &mut [u8],
    state: &mut [u8],
) -> Answer
    ensures answer { result ≡ (run_text_call options source.now words.now budget netlist.old state.old).answer }
    ensures netlist { netlist.new ≡ (run_text_call options source.now words.now budget netlist.old state.old).netlist }
    ensures state { state.new ≡ (run_text_call options source.now words.now budget netlist.old state.old).state }
{
    if let Err(r) = program::tables::check_given(options) {
        return Answer::refused(r);
    }
    let mut program = [0u8; PROGRAM_MOST];
    match text::program_of(source, &mut program) {
        Err(r) => Answer::refused(r),
        Ok(told) => crate::full::run::<Imperative>(
            options,
            &program[..told.count],
            words,
            budget,
            netlist,
            state,
        ),
    }
}
