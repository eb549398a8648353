// A slow run of a program. Everything is checked before anything is written, because a refusal changes no lent byte.
// Widening casts by `as` hold by computation, where a From is one more equation to rewrite by.
ghost use Rattle.std.specs.Prelude.{◌≡◌, ◌*◌, ◌<◌, ◌≤◌, length};
ghost use Rattle.model.specs.Circuit.{level};
ghost use Rattle.model.specs.Refusals.{refuse, first, Accepted};
ghost use Rattle.model.specs.Calls.{overwrite, refused_answer};
ghost use Rattle.model.specs.Gates.{end_at, slow_answer, value_bytes, slow_size, with_pulse, slow_run_checks, slow_running, slow_run_call};

use crate::net::Net;
use model::asked::check_asked;
use model::sizes::COMPILED_MOST;
use model::{Answer, Checked, Options, refuse};

// The bytes to work in that n cells need.
fn size(n: usize) -> usize
    requires { n ≤ 1024 }
    ensures { result ≡ slow_size n }
{
    512 * (2 * n + 1)
}

// No pulse length is looked at.
fn single(options: Options) -> Options
    ensures { result ≡ with_pulse 1 options }
{
    Options {
        pulse: 1,
        ..options
    }
}

// Refusals 19 to 21, 1 to 8, 22, 24 and 25, 13, 14. The six are parameters of their own, as those of the call: a check reads what a run writes.
fn check(
    options: Options,
    program: &[u8],
    words: &[u8],
    budget: u32,
    values: &[u8],
    work: &[u8],
) -> Checked
    ensures { result ≡ first (slow_run_checks options program.now words.now budget values.now work.now) }
{
    let one = single(options);
    program::check(one, program)?;
    check_asked(budget, words)?;
    let n = compiler::count_cells(one, program);
    if values.len() < 2 * n {
        return refuse(14, 0);
    }
    if work.len() < size(n) {
        return refuse(14, 0);
    }
    Ok(())
}

// The run of a program that was not refused. What was worked in is left 0.
fn run_accepted(
    options: Options,
    program: &[u8],
    words: &[u8],
    budget: u32,
    values: &mut [u8],
    work: &mut [u8],
) -> Answer
    requires { first (slow_run_checks options program.now words.now budget values.old work.old) ≡ Accepted }
    ensures answer { result ≡ (slow_running Accepted options program.now words.now budget values.old work.old).answer }
    ensures values { values.new ≡ (slow_running Accepted options program.now words.now budget values.old work.old).values }
    ensures work { work.new ≡ (slow_running Accepted options program.now words.now budget values.old work.old).work }
{
    let mut cells = [0u8; COMPILED_MOST];
    let made = compiler::list_accepted(single(options), program, &mut cells);
    let times = options.times.as_slice();
    let n = made.count as usize;
    let m = size(n);
    let net = Net {
        cells: &cells,
        n,
        finish: made.finish as usize,
        ors: made.ors as usize,
        times,
        words,
    };
    let answer = crate::run(&net, budget, values, &mut work[..m]);
    netlist::blocks::clear(work, 0, m);
    answer
}

// A second full run, in which operators take their time: the values at its last instant into one lent buffer; the other is to work in.
pub fn slow_run(
    options: Options,
    program: &[u8],
    words: &[u8],
    budget: u32,
    values: &mut [u8],
    work: &mut [u8],
) -> Answer
    ensures answer { result ≡ (slow_run_call options program.now words.now budget values.old work.old).answer }
    ensures values { values.new ≡ (slow_run_call options program.now words.now budget values.old work.old).values }
    ensures work { work.new ≡ (slow_run_call options program.now words.now budget values.old work.old).work }
{
    if let Err(r) = check(options, program, words, budget, values, work) {
        return Answer::refused(r);
    }
    run_accepted(options, program, words, budget, values, work)
}
