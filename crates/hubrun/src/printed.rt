// The text of an answer, put into a lent buffer of bytes, for there is no heap. Each contract tells the place after what was put in, and the buffer's list at
// exit: `sets d i v` is d with v put in from i on; the texts themselves are model/Hubrun's.
ghost use Rattle.std.specs.Prelude.{◌≡◌, [], ◌∷◌, ◌++◌, map, ◌+◌, ◌≤◌, length, take, drop, replicate};
ghost use Rattle.std.proofs.lemmas.List.Edits.{sets};
ghost use Rattle.model.specs.Word.{get32};
ghost use Rattle.model.specs.TimeTables.{defaults};
ghost use Rattle.model.specs.Calls.{overwrite, run_program_call};
ghost use Rattle.model.specs.Hubrun.{decimal, line, text_of, hubrun_text};

use model::sizes::{COMPILED_FILE, COMPILED_STATE, START_WORDS, VARIABLES};
use model::{Answer, Outcome};

// The line of sixteen words.
fn put_words(out: &mut [u8], at: usize, words: [u16; 16]) -> usize
    requires { at + length (line (map decimal words)) ≤ length out.old }
    ensures next { result ≡ at + length (line (map decimal words)) }
    ensures out { out.new ≡ sets out.old at (line (map decimal words)) }
{
    let mut next = at;
    for w in &words[..15] {
        next = lines::put_number(out, next, usize::from(*w), b' ');
    }
    lines::put_number(out, next, usize::from(words[15]), b'\n')
}

// The text of a run: the word of its outcome with a space, its instant, and the line of its words.
fn put_run(out: &mut [u8], word: &[u8], instant: u32, words: [u16; 16]) -> usize
    requires { length word.now + 358 ≤ length out.old }
    ensures next { result ≡ length ((word.now ++ (decimal instant ++ (10 ∷ []))) ++ line (map decimal words)) }
    ensures out { out.new ≡ overwrite ((word.now ++ (decimal instant ++ (10 ∷ []))) ++ line (map decimal words)) out.old }
{
    let told = word::put_bytes(out, 0, word);
    let first = lines::put_number(out, told, instant as usize, b'\n');
    put_words(out, first, words)
}

// The text of an answer.
pub fn answer_text(answer: Answer, out: &mut [u8; 512]) -> usize
    ensures length { result ≡ length (text_of answer) }
    ensures out { out.new ≡ overwrite (text_of answer) out.old }
{
    match answer.outcome {
        Outcome::Ended => put_run(out, b"end ", answer.instant, answer.words),
        Outcome::Open => put_run(out, b"open ", answer.instant, answer.words),
        Outcome::Refused(r) => lines::put_refusal(out, r.number, r.place),
    }
}

// The 272 start words: those of the sixteen variables are given, the elements start at 0.
fn start_words(given: &[u8]) -> [u8; 544]
    requires { length given.now ≡ 32 }
    ensures { result ≡ given.now ++ replicate 512 0 }
{
    let mut words = [0u8; START_WORDS];
    words[..VARIABLES].copy_from_slice(given);
    words
}

// The full run that an input asks for: 32 bytes of start words, a budget of four bytes, a program.
fn run(input: &[u8]) -> Answer
    requires { 36 ≤ length input.now }
    ensures { result ≡ (run_program_call defaults (drop 36 input.now) (take 32 input.now ++ replicate 512 0) (get32 input.now 32) (replicate 6656 0) (replicate 41480 0)).answer }
{
    let budget = word::get32(input, VARIABLES);
    let words = start_words(&input[..VARIABLES]);
    let mut netlist = [0u8; COMPILED_FILE];
    let mut state = [0u8; COMPILED_STATE];
    hub::run_program(
        hub::defaults(),
        &input[36..],
        &words,
        budget,
        &mut netlist,
        &mut state,
    )
}

// What hubrun prints for an input.
pub fn text(input: &[u8], out: &mut [u8; 512]) -> usize
    ensures length { result ≡ length (hubrun_text input.now) }
    ensures out { out.new ≡ overwrite (hubrun_text input.now) out.old }
{
    if input.len() < 36 {
        return lines::put_refusal(out, 1, 0);
    }
    answer_text(run(input), out)
}
