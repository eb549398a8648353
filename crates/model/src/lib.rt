// The public types, by value, and the step of a merge. Definitions that speak of them are in specs/.
// Numbers and places are those of paper 01, "From the input" and "From the state", and of paper 02.
#![tactic(auto)]

ghost use Rattle.std.specs.Prelude.{◌≡◌, Err};
ghost use Rattle.model.specs.Circuit.{merge_step, return_step, step_of};
ghost use Rattle.model.specs.Calls.{refused_answer};

pub mod asked; // what is asked of every full run
pub mod kinds; // rows of the two tables of kinds
pub mod sizes; // sizes and limits, for code
pub mod texts; // tokens and modes, for the reader of a text

// A refusal: its number, and its place. The number is the product's, which the C functions hand out and definition `first_fault` counts with, so it
// is no enum.
#[derive(Clone, Copy)]
pub struct Refusal {
    pub number: u8,
    pub place: usize,
}

// The answer of a check: nothing, or the refusal.
pub type Checked = Result<(), Refusal>;

// A refusal, of any call.
pub fn refuse<A>(number: u8, place: usize) -> Result<A, Refusal>
    ensures { result ≡ Err (record { number = number; place = place }) }
{
    Err(Refusal { number, place })
}

// What a call wrote: how many bytes of a file, or cells of a list, and the finish cell.
#[derive(Clone, Copy)]
pub struct Written {
    pub count: usize,
    pub finish: u16,
}

// How a run stands: the finish wire is high, or it is not, or the call was refused.
#[derive(Clone, Copy)]
pub enum Outcome {
    Ended,
    Open,
    Refused(Refusal),
}

// The answer of a run, by value, as it is asked for: the words stand beside the outcome, so it is no Result, and a call that is refused tells it by
// `Answer::refused`, where others have `?`.
#[derive(Clone, Copy)]
pub struct Answer {
    pub outcome: Outcome,
    pub instant: u32,
    pub count: u32,
    pub words: [u16; 16],
}

impl Answer {
    // That of a refused call.
    pub fn refused(refusal: Refusal) -> Answer
        ensures { result ≡ refused_answer refusal }
    {
        Answer {
            outcome: Outcome::Refused(refusal),
            instant: 0,
            count: 0,
            words: [0; 16],
        }
    }
}

// A node of a program, four bytes. The kind stays a byte: a caller may hand over any, and what is no kind is refused (2), not unread.
#[derive(Clone, Copy)]
pub struct Node {
    pub kind: u8,
    pub delay: u8,
    pub n: u16,
}

// What is given beside a program: what the check of its table says, the operator times, that of each kind from kind 0 on, the number of
// procedures, and the pulse length. What the check says stands beside the times and not around them: definition `load` of specs/TimeTables, whose
// record this is, has times for a refused table too.
#[derive(Clone, Copy)]
pub struct Options {
    pub checked: Checked,
    pub times: [u8; 11],
    pub procedures: usize,
    pub pulse: u8,
}

// A cell of a netlist, six bytes; callers in other languages lend slices of them. Its kind is any byte for that reason.
#[repr(C)]
#[derive(Clone, Copy, PartialEq, Eq)]
pub struct Cell {
    pub kind: u8,
    pub delay: u8,
    pub a: u16,
    pub b: u16,
}

// The two bits that a merge cell holds between instants.
#[derive(Clone, Copy)]
pub struct Merge {
    pub a: bool,
    pub b: bool,
}

// How a state keeps its lines: the last 256 inputs of each, or one number for each.
#[derive(Clone, Copy)]
pub enum Format {
    Full,
    Compact,
}

// What a merge holds after an instant, and its output.
#[derive(Clone, Copy)]
pub struct Merged {
    pub held: Merge,
    pub out: bool,
}

impl Merge {
    // One instant with inputs a and b; one: the pulse length is 1; was: the output an instant ago. The two are flags of definition `merge_step`.
    pub fn step(self, one: bool, was: bool, a: bool, b: bool) -> Merged
        ensures { result ≡ merge_step one was self a b }
    {
        let both_a = a | self.a;
        let both_b = b | self.b;
        if one {
            let out = both_a & both_b;
            return Merged {
                held: Merge {
                    a: both_a & !out,
                    b: both_b & !out,
                },
                out,
            };
        }
        let out = both_a & both_b & (a | b);
        let gone = was & !out;
        Merged {
            held: Merge {
                a: both_a & !gone,
                b: both_b & !gone,
            },
            out,
        }
    }

    // One instant of a call's merge, which holds a and no b; the flags are those of `return_step`.
    pub fn step_call(self, one: bool, was: bool, a: bool, b: bool) -> Merged
        ensures { result ≡ return_step one was self a b }
    {
        let waits = a | self.a;
        let out = waits & b;
        if one {
            return Merged {
                held: Merge {
                    a: waits & !out,
                    b: false,
                },
                out,
            };
        }
        let gone = was & !out;
        Merged {
            held: Merge {
                a: waits & !gone,
                b: false,
            },
            out,
        }
    }

    // One instant of a merge cell of this kind, by the byte that a netlist file has, with pulses of this length.
    pub fn step_of(self, pulse: u8, kind: u8, was: bool, a: bool, b: bool) -> Merged
        ensures { result ≡ step_of pulse kind was self a b }
    {
        let one = pulse == 1;
        if kind == 39 {
            return self.step_call(one, was, a, b);
        }
        self.step(one, was, a, b)
    }
}
