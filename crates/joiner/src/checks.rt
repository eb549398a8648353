// The refusals of parts: each part's own, 29, 30 and 31.
ghost use Rattle.std.specs.Prelude.{◌≡◌, [], ◌∷◌, length};
ghost use Rattle.model.specs.Refusals.{refuse, first, first_fault, Accepted};
ghost use Rattle.model.specs.ProgramChecks.{check_of};
ghost use Rattle.model.specs.NetlistFile.{file_check};
ghost use Rattle.model.specs.Text.{same};
ghost use Rattle.model.specs.TimeTables.{given_check};
ghost use Rattle.model.specs.Calls.{check_call, compiled_file};
ghost use Rattle.model.specs.PartCalls.{own_checks, nodes_fault, pulse_fault, other_fault, part_checks};
ghost use Rattle.joiner.specs.Lent.{parts_left};

use crate::parts::{Parts, beside};
use model::sizes::{COMPILED_MOST, MOST_NODES, NODE};
use model::{Checked, Options, refuse};

// A part's own checks, program before file: 27, 19 to 21, 1 to 8, 22, 24 and 25, then 9 to 12.
fn check_part(options: Options, program: &[u8], file: &[u8]) -> Checked
    ensures { result ≡ first (given_check options ∷ check_of options program.now ∷ file_check file.now ∷ []) }
{
    program::check(options, program)?;
    netlist::check_file(file)
}

// Those of all parts, part by part.
fn check_own(options: Options, parts: Parts) -> Checked
    ensures { result ≡ first (own_checks options (parts_left parts.entry)) }
{
    for part in parts {
        check_part(beside(options, part.pulse), part.program, part.file)?;
    }
    options.checked
}

// Refusal 29 for the nodes of the parts so far and of the sequences between them.
fn check_nodes(parts: Parts) -> Checked
    ensures { result ≡ first_fault (nodes_fault (parts_left parts.entry)) 0 (length (parts_left parts.entry)) }
{
    let mut before: usize = 0;
    for (i, part) in parts.enumerate() {
        let nodes = before + part.program.len() / NODE;
        if MOST_NODES < nodes {
            return refuse(29, i);
        }
        before = nodes + 1;
    }
    Ok(())
}

// Refusal 30: a pulse length that isn't part 0's.
fn check_pulses(parts: Parts) -> Checked
    ensures { result ≡ first_fault (pulse_fault (parts_left parts.entry)) 0 (length (parts_left parts.entry)) }
{
    let pulse = parts.pulse();
    for (i, part) in parts.enumerate() {
        if part.pulse != pulse {
            return refuse(30, i);
        }
    }
    Ok(())
}

// Whether a file is that of its program, whose cells are made for that.
fn is_own(options: Options, program: &[u8], file: &[u8]) -> bool
    requires { (check_call options program.now ≡ Accepted) × (file_check file.now ≡ Accepted) }
    ensures { result ≡ same file.now (compiled_file options program.now) }
{
    let mut cells = [0u8; COMPILED_MOST];
    let made = compiler::list_accepted(options, program, &mut cells);
    netlist::same::is_file_of(
        file,
        &cells,
        usize::from(made.count),
        options.pulse,
        made.finish,
    )
}

// Refusal 31: a file that isn't its program's.
fn check_files(options: Options, parts: Parts) -> Checked
    requires { first (own_checks options (parts_left parts)) ≡ Accepted }
    ensures { result ≡ first_fault (other_fault options (parts_left parts.entry)) 0 (length (parts_left parts.entry)) }
{
    for (i, part) in parts.enumerate() {
        if !is_own(beside(options, part.pulse), part.program, part.file) {
            return refuse(31, i);
        }
    }
    Ok(())
}

// All of them: of each part 27, 19 to 21, 1 to 8, 22, 24 and 25, and 9 to 12; then 29, 30, 31.
pub fn check_parts(options: Options, parts: Parts) -> Checked
    ensures { result ≡ first (part_checks options (parts_left parts.entry)) }
{
    check_own(options, parts)?;
    let n = parts.number();
    if (n < 2) | (8 < n) {
        return refuse(29, 0);
    }
    check_nodes(parts)?;
    check_pulses(parts)?;
    check_files(options, parts)
}
