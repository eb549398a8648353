// The check of a program with what is given beside it: refusals 1 to 8, 22, 24 and 25, and the two arrays of 200 that the checks fill.
// Contracts are equations with model/ProgramChecks; specs/Ends and Shape say what the arrays hold. Entry k of `operators` is the time of kind k.
// In all files `|` and `&` stand between tests where both sides are cheap: they are the model's own `||` and `&&`. Most widening casts are `as`, which a
// proof computes; each `From` would be one more equation to rewrite by.
#![tactic(auto)]

ghost use Rattle.std.specs.Prelude.{◌≡◌, drop, Err, MatchResult};
ghost use Rattle.model.specs.Refusals.{refuse, first};
ghost use Rattle.model.specs.Program.{time_in};
ghost use Rattle.model.specs.ProgramChecks.{program_checks};
ghost use Rattle.model.specs.Calls.{check_call};
ghost use Rattle.model.specs.FunctionalCalls.{check_functional_call};
ghost use Rattle.laws.specs.Program.Passed.{Readable};
ghost use Rattle.program.specs.Roots.{Rooted};
ghost use Rattle.program.specs.Shape.{AllShaped, Tells, GoesOn};

pub mod tables; // what is given beside a program
pub mod kinds; // the table of node kinds
pub mod nodes; // nodes in bytes, and where subtrees end
mod reading; // refusals 1 to 6
mod roots; // refusals 22 and 24
mod times; // expression times, and refusal 7
mod clashes; // refusals 25 and 8

use crate::nodes::Tree;
use crate::times::Measured;
use model::sizes::NODE;
use model::{Checked, Options, Refusal};

// What a scan tells of an accepted program: each node's expression time, and the node after its subtree. Two arrays of 200 are asked for, and each is read
// without the other.
#[derive(Clone, Copy)]
pub struct Scanned {
    pub times: [u16; 200],
    pub ends: [usize; 200],
}

// Refusals 7, 25 and 8.
fn last_check(options: &Options, program: &[u8], told: &Scanned) -> Checked
    requires { Rooted options.now.procedures program.now told.now.ends × AllShaped (time_in options.now.times) program.now told.now }
    ensures { result ≡ first (drop 5 (program_checks (time_in options.now.times) options.now.pulse options.now.procedures program.now)) }
{
    let tree = Tree {
        program,
        ends: &told.ends,
    };
    let measured = Measured {
        operators: &options.times,
        tree,
        times: &told.times,
    };
    measured.first_slow(options.pulse)?;
    clashes::first_clash(&tree, options.procedures, true)?;
    clashes::first_clash(&tree, options.procedures, false)
}

// Refusals 22 and 24, and then those.
fn late_check(options: &Options, program: &[u8], told: &Scanned) -> Checked
    requires { Rooted options.now.procedures program.now told.now.ends × AllShaped (time_in options.now.times) program.now told.now }
    ensures { result ≡ first (drop 3 (program_checks (time_in options.now.times) options.now.pulse options.now.procedures program.now)) }
{
    let tree = Tree {
        program,
        ends: &told.ends,
    };
    roots::first_in_roots(&tree, options.procedures, false)?;
    roots::first_in_roots(&tree, options.procedures, true)?;
    last_check(options, program, told)
}

// The arrays, filled from the last node to the first: an entry is by those behind it, so nodes are counted, and the arrays are read as wholes.
fn measure<'a>(options: &'a Options, program: &'a [u8]) -> Scanned
    requires { Readable options.now.procedures program.now }
    ensures { AllShaped (time_in options.now.times) program.now result }
{
    let mut told = Scanned {
        times: [0; 200],
        ends: [0; 200],
    };
    for i in (0..program.len() / NODE).rev() {
        let row = kinds::kind_row(nodes::read_node(program, i).kind);
        let tree = Tree {
            program,
            ends: &told.ends,
        };
        let measured = Measured {
            operators: &options.times,
            tree,
            times: &told.times,
        };
        let time = measured.time_at(i);
        let end = tree.skip(i + 1, row.exprs as usize + row.stmts as usize);
        told.times[i] = time;
        told.ends[i] = end;
    }
    told
}

// The refusals after 6. The two checks of a program go by this and not by a scan, whose arrays would be copied for them. It is a call of its own, so that the
// calls of a check are short where a program is refused before.
#[inline(never)]
fn check_readable(options: &Options, program: &[u8]) -> Checked
    requires { Readable options.now.procedures program.now }
    ensures { result ≡ first (drop 3 (program_checks (time_in options.now.times) options.now.pulse options.now.procedures program.now)) }
{
    late_check(options, program, &measure(options, program))
}

// The refusals after 6, with the arrays.
pub fn scan_readable(options: &Options, program: &[u8]) -> Result<Scanned, Refusal>
    requires { Readable options.now.procedures program.now }
    ensures { Tells (time_in options.now.times) program.now (first (drop 3 (program_checks (time_in options.now.times) options.now.pulse options.now.procedures program.now))) result }
{
    let told = measure(options, program);
    late_check(options, program, &told)?;
    Ok(told)
}

// The refusals before the arrays: those of what is given, and 1 to 6. `scan` has room for the arrays from its beginning; who calls this and scan_readable has
// it only where the program is read.
pub fn first_check(options: Options, program: &[u8]) -> Checked
    ensures { MatchResult result (λ u. GoesOn options program.now (check_call options program.now)) (λ r. check_call options program.now ≡ Err r) }
{
    tables::check_given(options)?;
    reading::early_check(program, options.procedures)
}

// All refusals, those of what is given first, with the arrays that the compiler and the reference run go by.
pub fn scan(options: Options, program: &[u8]) -> Result<Scanned, Refusal>
    ensures { Tells (time_in options.times) program.now (check_call options program.now) result }
{
    first_check(options, program)?;
    scan_readable(&options, program)
}

// The check of a program.
pub fn check(options: Options, program: &[u8]) -> Checked
    ensures { result ≡ check_call options program.now }
{
    first_check(options, program)?;
    check_readable(&options, program)
}

// As first_check, for a functional circuit, which is given a table alone: what the others go by. Refusal 28 comes after 6. Each of the two is the order of
// its checks and no more.
pub fn first_functional(options: Options, program: &[u8]) -> Result<Options, Refusal>
    ensures { MatchResult result (λ o. GoesOn o program.now (check_functional_call options program.now) × (o.times ≡ options.times)) (λ r. check_functional_call options program.now ≡ Err r) }
{
    options.checked?;
    reading::early_check(program, 0)?;
    reading::first_added(program)?;
    Ok(Options {
        procedures: 0,
        pulse: 1,
        ..options
    })
}

// As scan, for a functional circuit.
pub fn scan_functional(options: Options, program: &[u8]) -> Result<Scanned, Refusal>
    ensures { Tells (time_in options.times) program.now (check_functional_call options program.now) result }
{
    let alone = first_functional(options, program)?;
    scan_readable(&alone, program)
}

// The check of a program for a functional circuit.
pub fn check_functional(options: Options, program: &[u8]) -> Checked
    ensures { result ≡ check_functional_call options program.now }
{
    let alone = first_functional(options, program)?;
    check_readable(&alone, program)
}
