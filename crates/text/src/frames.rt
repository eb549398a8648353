// The stack of what is still open, the frame on top last, and how high it is.
// Contracts are equations with the definitions of model/Reader, of the frames that such a list has (`frames_in`, specs/Shown).
ghost use Rattle.std.specs.Prelude.{◌≡◌, ◌+◌, ◌<◌, ◌≤◌, ◌∷◌, length};
ghost use Rattle.model.specs.Reader.{hold_of, reach_of, top_code, top_start};
ghost use Rattle.std.specs.List.{suffix_len};
ghost use Rattle.text.specs.Shown.{frame_of, frames_in, tight, Pops};

// Something that is still open: the code of its token, a number as in the frames of model/Reader, and the number of its first node.
#[derive(Clone, Copy)]
pub struct Open {
    pub code: u8,
    pub start: u16,
}

// What stands in a stack above its frames, and what an empty one tells of its frame on top: no Option, since top_code and top_start of
// model/Reader are 0 there, and 0 is what the tests of `reader` go by.
pub const NO_FRAME: Open = Open { code: 0, start: 0 };

// Where what was read begins, and how high the stack is.
#[derive(Clone, Copy)]
pub struct Popped {
    pub start: u16,
    pub height: usize,
}

// How tightly what is open holds what follows it.
#[tactic(auto, unfolding(model::specs::Reader::hold_of))]
fn hold_of(code: u8) -> u8
    ensures { result ≡ hold_of code }
{
    match code {
        3 => 10,
        4 | 5 => 9,
        8 | 9 => 7,
        6 => 5,
        7 => 3,
        19 => 4,
        20 => 2,
        _ => 0,
    }
}

// How far a new operator reaches back: a table of its own in model/Reader, and not the one above with other numbers.
#[tactic(auto, unfolding(model::specs::Reader::reach_of))]
pub fn reach_of(code: u8) -> u8
    ensures { result ≡ reach_of code }
{
    match code {
        4 | 5 => 8,
        8 | 9 => 7,
        6 => 4,
        7 => 2,
        19 => 5,
        20 => 3,
        _ => 0,
    }
}

// How many frames on top hold more tightly than reach.
fn tighter(stack: &[Open], reach: u8) -> usize
    ensures { result ≡ suffix_len (tight reach) stack.now }
{
    stack
        .iter()
        .rev()
        .take_while(|open| reach < hold_of(open.code))
        .count()
}

// Takes the operators off that hold more tightly than reach.
pub fn pop(stack: &[Open], reach: u8, start: u16, height: usize) -> Popped
    requires { height ≤ length stack.now }
    ensures { Pops stack.now reach start height result }
{
    let kept = height - tighter(&stack[..height], reach);
    let start = if kept < height {
        stack[kept].start
    } else {
        start
    };
    Popped {
        start,
        height: kept,
    }
}

// The frame on top.
pub fn top(stack: &[Open], height: usize) -> Open
    requires { height ≤ length stack.now }
    ensures code { result.code ≡ top_code (frames_in stack.now height) }
    ensures start { result.start ≡ top_start (frames_in stack.now height) }
{
    if height == 0 {
        return NO_FRAME;
    }
    stack[height - 1]
}

// One frame more on a stack of this height.
pub fn push(stack: &mut [Open], height: usize, frame: Open)
    requires { height < length stack.old }
    ensures { frames_in stack.new (height + 1) ≡ frame_of frame ∷ frames_in stack.old height }
{
    stack[height] = frame;
}
