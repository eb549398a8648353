// Programs as text: refusals 17 and 18, and the program that a text stands for.
// Contracts are equations with model/Text, model/Reader and model/TextCalls; what the lists that a machine works on show of the reader is said
// in specs/Shown.
#![tactic(auto)]

ghost use Rattle.std.specs.Prelude.{◌≡◌, ◌*◌, [], length, nat_lt, Err};
ghost use Rattle.model.specs.declared.Written.{Written};
ghost use Rattle.model.specs.Refusals.{refuse_if, Accepted};
ghost use Rattle.model.specs.Calls.{writing};
ghost use Rattle.model.specs.TimeTables.{given_check};
ghost use Rattle.model.specs.TextCalls.{read_text_call};
ghost use Rattle.text.specs.Parsing.{program_told, Given, give_call};

mod frames; // the stack of what is still open
mod nodes; // the nodes, four bytes each
mod machine; // what the reader keeps, and its moves
mod reader; // what the reader does at a token
mod parsing; // the reader over all words

use model::sizes::{MOST_NODES, PROGRAM_MOST, TEXT_MOST};
use model::{Checked, Options, Refusal, Written, refuse};

// So many nodes as bytes of a program: above 200 it is too long, whatever they are. A program has no finish, and is told with 0 for it: definition
// `read_text_call` has the answer of a call that writes.
fn sized(n: usize) -> Result<Written, Refusal>
    ensures { result ≡ (writing (refuse_if (nat_lt 800 (4 * n)) 1 0) [] (4 * n) 0 []).answer }
{
    if MOST_NODES < n {
        return refuse(1, 0);
    }
    Ok(Written {
        count: 4 * n,
        finish: 0,
    })
}

// The program of a text, into a list of 800 bytes: refusals 17, 18, and 1 where it is longer.
pub fn program_of(text: &[u8], program: &mut [u8]) -> Result<Written, Refusal>
    requires { length program.old ≡ 800 }
    ensures answer { result ≡ program_told text.now }
    ensures program { Given text.now program.new }
{
    if TEXT_MOST < text.len() {
        return refuse(17, TEXT_MOST);
    }
    scanner::check_words(text)?;
    match parsing::parse(text, program) {
        Err(place) => refuse(18, place),
        Ok(n) => sized(n),
    }
}

// A program, checked and put into a lent list: refusals 19 to 21, 1 to 8, 22, 24 and 25, 14.
fn give(options: Options, program: &[u8], lent: &mut [u8]) -> Result<Written, Refusal>
    ensures answer { result ≡ (give_call options program.now lent.old).answer }
    ensures lent { lent.new ≡ (give_call options program.now lent.old).lent }
{
    program::check(options, program)?;
    if lent.len() < program.len() {
        return refuse(14, 0);
    }
    let count = word::put_bytes(lent, 0, program);
    Ok(Written { count, finish: 0 })
}

// Text to program with options that are not refused: refusals 17, 18, 1 to 8, 22, 24 and 25, 14.
fn read_accepted(options: Options, text: &[u8], lent: &mut [u8]) -> Result<Written, Refusal>
    requires { given_check options ≡ Accepted }
    ensures answer { result ≡ (read_text_call options text.now lent.old).answer }
    ensures lent { lent.new ≡ (read_text_call options text.now lent.old).lent }
{
    let mut program = [0u8; PROGRAM_MOST];
    let told = program_of(text, &mut program)?;
    give(options, &program[..told.count], lent)
}

// Text to program: refusals 27 and 19 to 21 first.
pub fn read_text(options: Options, text: &[u8], lent: &mut [u8]) -> Result<Written, Refusal>
    ensures answer { result ≡ (read_text_call options text.now lent.old).answer }
    ensures lent { lent.new ≡ (read_text_call options text.now lent.old).lent }
{
    program::tables::check_given(options)?;
    read_accepted(options, text, lent)
}
