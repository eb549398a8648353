// The reference run: a program is checked, and then run on its bytes by its own rules, with the times of a kind of circuit, within a budget.
// Contracts are equations with model/Calls and model/FunctionalCalls; specs/Ran says what words, costs and runs in code stand for.
#![tactic(auto)]

ghost use Rattle.std.specs.Prelude.{◌≡◌, ◌≤◌, IfOk, MatchResult};
ghost use Rattle.model.specs.Program.{program_of};
ghost use Rattle.model.specs.Procedures.{meaning};
ghost use Rattle.model.specs.Calls.{refused_answer, reference_answer, reference_call};
ghost use Rattle.model.specs.FunctionalCalls.{reference_functional_call};
ghost use Rattle.rules.specs.Ran.{costs_of, run_of, time_of, main_answer, Ready, Runnable};

mod words; // words and expressions
mod ways; // how a statement ran
mod statements; // statements by their nodes

use crate::statements::{Costs, Interpreter};
use crate::ways::Ran;
use model::asked::check_asked;
use model::sizes::NODE;
use model::{Answer, Options, Outcome, Refusal};
use program::Scanned;
use program::nodes::Tree;

// The answer of a run within a budget, which left these words.
fn answer(words: &[u16; 272], ran: Ran, budget: u32) -> Answer
    requires { (time_of ran ≤ budget) × (budget ≤ 1000000) }
    ensures { result ≡ reference_answer budget (run_of ran words.now) }
{
    match ran {
        Ran::Ended(time) => Answer {
            outcome: Outcome::Ended,
            instant: time,
            count: time + 1,
            words: words::variables(words),
        },
        _ => Answer {
            outcome: Outcome::Open,
            instant: budget,
            count: budget + 1,
            words: [0; 16],
        },
    }
}

// Refusals 13 and 14, and then the main program, which the procedures stand before, from 544 bytes of start words.
fn run_main(interpreter: &Interpreter, start: &[u8], budget: u32) -> Answer
    requires { Runnable interpreter.now (meaning (program_of 1 interpreter.now.procedures interpreter.now.tree.program.now)) }
    ensures { result ≡ main_answer (costs_of interpreter.now.costs) interpreter.now.procedures interpreter.now.tree.program.now start.now budget }
{
    if let Err(r) = check_asked(budget, start) {
        return Answer::refused(r);
    }
    let main = interpreter.tree.skip(0, interpreter.procedures);
    let mut held = words::start_words(start);
    let ran = interpreter.run_at(&mut held, main, budget);
    answer(&held, ran, budget)
}

// The answer of a check that refused, or the run of a program that it accepted, by where its nodes' subtrees end.
fn run_scanned(
    scanned: Result<Scanned, Refusal>,
    program: &[u8],
    costs: Costs,
    procedures: usize,
    start: &[u8],
    budget: u32,
) -> Answer
    requires { IfOk scanned (λ told. Ready program.now told.ends procedures (meaning (program_of 1 procedures program.now))) }
    ensures { MatchResult scanned (λ told. result ≡ main_answer (costs_of costs) procedures program.now start.now budget) (λ r. result ≡ refused_answer r) }
{
    match scanned {
        Err(r) => Answer::refused(r),
        Ok(told) => {
            let tree = Tree {
                program,
                ends: &told.ends,
            };
            let interpreter = Interpreter {
                tree,
                procedures,
                costs,
            };
            run_main(&interpreter, start, budget)
        }
    }
}

// The check, and then the run: an assignment takes as many instants beside its delay as a pulse has. Here and below the check goes in its two parts, so that
// what is refused early has no arrays cleared for it.
pub fn reference_run(options: Options, program: &[u8], words: &[u8], budget: u32) -> Answer
    ensures { result ≡ reference_call options program.now words.now budget }
{
    match program::first_check(options, program) {
        Err(r) => Answer::refused(r),
        Ok(()) => {
            let costs = Costs {
                write: options.pulse,
                latch: 0,
            };
            let scanned = program::scan_readable(&options, program);
            run_scanned(scanned, program, costs, options.procedures, words, budget)
        }
    }
}

// The same for a functional circuit, which is given a table alone: an assignment takes its delay, and a loop's words are latched in one instant.
pub fn reference_functional(options: Options, program: &[u8], words: &[u8], budget: u32) -> Answer
    ensures { result ≡ reference_functional_call options program.now words.now budget }
{
    match program::first_functional(options, program) {
        Err(r) => Answer::refused(r),
        Ok(alone) => {
            let costs = Costs { write: 0, latch: 1 };
            let scanned = program::scan_readable(&alone, program);
            run_scanned(scanned, program, costs, 0, words, budget)
        }
    }
}
