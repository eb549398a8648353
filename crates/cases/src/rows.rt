// A row: a program and the number of its procedures, word 0 at the start, a budget, and the answer that circuit and rules are to give. Answers are
// compared as replies of 48 bytes (reply/Replies); of an open run without the words, which the rules don't tell.
ghost use Rattle.std.specs.Prelude.{◌≡◌, true, ◌*◌, ◌≤◌, ◌<◌, length, replicate};
ghost use Rattle.model.specs.TimeTables.{built_in, beside, load};
ghost use Rattle.model.specs.Calls.{run_program_call, reference_call, refused_answer};
ghost use Rattle.model.specs.Cases.{start, end_answer};
ghost use Rattle.cases.specs.Rows.{open_answer, bytes_of, Same, Holds, kinds_set};

use model::sizes::{COMPILED_FILE, COMPILED_STATE, START_WORDS};
use model::{Answer, Outcome, Refusal};
use reply::Reply;

pub fn ends(instant: u32, word: u16) -> Answer
    requires { instant < 1000000 }
    ensures { result ≡ end_answer instant word }
{
    let mut words = [0u16; 16];
    words[0] = word;
    Answer {
        outcome: Outcome::Ended,
        instant,
        count: instant + 1,
        words,
    }
}

pub fn stays_open(instant: u32) -> Answer
    requires { instant ≤ 1000000 }
    ensures { result ≡ open_answer instant }
{
    Answer {
        outcome: Outcome::Open,
        instant,
        count: instant + 1,
        words: [0u16; 16],
    }
}

pub fn refuses(number: u8, place: usize) -> Answer
    ensures { result ≡ refused_answer (record { number = number; place = place }) }
{
    Answer::refused(Refusal { number, place })
}

// Nodes from one place to another, all of a kind. They go by number: of chunks that are lent to be written a proof knows, after the loop, the lengths alone.
pub fn set_kinds(program: &mut [u8], from: usize, to: usize, kind: u8)
    requires { 4 * to ≤ length program.old }
    ensures { program.new ≡ kinds_set program.old from to kind }
{
    for i in from..to {
        program[4 * i] = kind;
    }
}

// The start words where variable 0 has this word and the others 0.
#[tactic(auto, unfolding(model::specs::Word::put16))]
fn start(word: u16) -> [u8; START_WORDS]
    ensures { result ≡ start word }
{
    let mut words = [0u8; START_WORDS];
    word::put16(&mut words, 0, word);
    words
}

fn by_circuit(procedures: usize, program: &[u8], word: u16, budget: u32) -> Answer
    ensures { result ≡ (run_program_call (load (beside built_in procedures 1)) program.now (start word) budget (replicate 6656 0) (replicate 41480 0)).answer }
{
    let mut netlist = [0u8; COMPILED_FILE];
    let mut state = [0u8; COMPILED_STATE];
    hub::run_program(
        hub::load(None, procedures, 1),
        program,
        &start(word),
        budget,
        &mut netlist,
        &mut state,
    )
}

fn by_rules(procedures: usize, program: &[u8], word: u16, budget: u32) -> Answer
    ensures { result ≡ reference_call (load (beside built_in procedures 1)) program.now (start word) budget }
{
    hub::reference_run(
        hub::load(None, procedures, 1),
        program,
        &start(word),
        budget,
    )
}

fn bytes_of(a: Answer) -> [u8; reply::LENGTH]
    ensures { result ≡ bytes_of a }
{
    let mut bytes = [0u8; reply::LENGTH];
    reply::put(&mut bytes, Reply::from(a));
    bytes
}

// Whether two answers are the same, by their replies, as Same tells it: byte 0 is 2 where the run is open.
fn same(a: Answer, b: Answer) -> bool
    ensures { result ≡ true → Same a b }
{
    let x = bytes_of(a);
    let y = bytes_of(b);
    if x[0] == 2 {
        x[..16] == y[..16]
    } else {
        x == y
    }
}

pub fn holds(procedures: usize, program: &[u8], word: u16, budget: u32, wanted: Answer) -> bool
    ensures { result ≡ true → Holds procedures program.now word budget wanted }
{
    same(by_circuit(procedures, program, word, budget), wanted)
        && same(by_rules(procedures, program, word, budget), wanted)
}
