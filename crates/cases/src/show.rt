// A row's line: its name, and the answer that circuit and rules gave, or "differs".
use crate::rows;
use model::{Answer, Outcome, Refusal};
use std::io;

// A row's parts are parameters, and no struct: each of the thirty rows is a line, and fields would be named anew in each.
pub fn row(
    rt: &impl Print,
    name: &str,
    program: &[u8],
    word: u16,
    budget: u32,
    wanted: Answer,
) -> io::Result<()> {
    row_of(rt, name, 0, program, word, budget, wanted)
}

// The same of a program with procedures.
pub fn row_of(
    rt: &impl Print,
    name: &str,
    procedures: usize,
    program: &[u8],
    word: u16,
    budget: u32,
    wanted: Answer,
) -> io::Result<()> {
    if rows::holds(procedures, program, word, budget, wanted) {
        answer(rt, name, wanted)
    } else {
        println!(rt; "{name}: differs")
    }
}

fn answer(rt: &impl Print, name: &str, wanted: Answer) -> io::Result<()> {
    let instant = wanted.instant;
    match wanted.outcome {
        Outcome::Ended => println!(rt; "{name}: end {instant}"),
        Outcome::Open => println!(rt; "{name}: open {instant}"),
        Outcome::Refused(Refusal { number, place }) => {
            println!(rt; "{name}: refused {number} {place}")
        }
    }
}
