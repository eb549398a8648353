// Replies: an answer as 48 bytes in a lent buffer. specs/Replies says which byte means what.
#![tactic(auto)]

ghost use Rattle.std.specs.Prelude.{◌≡◌, ◌≤◌, length};
ghost use Rattle.reply.specs.Replies.{refused_reply, checked_reply, written_reply, answer_reply, put_word, replied};
ghost use Rattle.model.specs.State.{up_to};

use model::{Answer, Checked, Outcome, Refusal, Written};

pub const LENGTH: usize = 48;

// The kind and a refusal's number are numbers, since callers in other languages read them as bytes 0 and 1 (specs/Replies).
#[derive(Drop)]
pub struct Reply {
    pub kind: u8,
    pub number: u8,
    pub place: u32,
    pub first: u32,
    pub second: u32,
    pub words: [u16; 16],
}

// A place, and a number of bytes or cells, as far as four bytes tell it.
impl From<Refusal> for Reply {
    ghost from_gives = { λ r reply. reply ≡ refused_reply r };

    fn from(r: Refusal) -> Reply {
        Reply {
            kind: 3,
            number: r.number,
            place: (r.place % 4294967296) as u32,
            first: 0,
            second: 0,
            words: [0; 16],
        }
    }
}

fn of_numbers(kind: u8, first: u32, second: u32, words: [u16; 16]) -> Reply
    ensures { result ≡ record { kind = kind; number = 0; place = 0; first = first; second = second; words = words } }
{
    Reply {
        kind,
        number: 0,
        place: 0,
        first,
        second,
        words,
    }
}

#[tactic(auto, unfolding(crate::specs::Replies::checked_reply))]
impl From<Checked> for Reply {
    ghost from_gives = { λ c reply. reply ≡ checked_reply c };

    fn from(c: Checked) -> Reply {
        match c {
            Ok(()) => of_numbers(0, 0, 0, [0; 16]),
            Err(r) => Reply::from(r),
        }
    }
}

#[tactic(auto, unfolding(crate::specs::Replies::written_reply))]
impl From<Result<Written, Refusal>> for Reply {
    ghost from_gives = { λ w reply. reply ≡ written_reply w };

    fn from(w: Result<Written, Refusal>) -> Reply {
        match w {
            Ok(Written { count, finish }) => {
                of_numbers(0, (count % 4294967296) as u32, u32::from(finish), [0; 16])
            }
            Err(r) => Reply::from(r),
        }
    }
}

#[tactic(auto, unfolding(crate::specs::Replies::outcome_reply))]
impl From<Answer> for Reply {
    ghost from_gives = { λ a reply. reply ≡ answer_reply a };

    fn from(a: Answer) -> Reply {
        match a.outcome {
            Outcome::Ended => of_numbers(1, a.instant, a.count, a.words),
            Outcome::Open => of_numbers(2, a.instant, a.count, a.words),
            Outcome::Refused(r) => Reply::from(r),
        }
    }
}

#[tactic(auto, unfolding(model::specs::State::up_to))]
fn put_words(reply: &mut [u8], words: [u16; 16])
    requires { 48 ≤ length reply.old }
    ensures { reply.new ≡ up_to (put_word words) 16 reply.old }
{
    for (k, w) in words.iter().enumerate() {
        word::put16(reply, 16 + 2 * k, *w);
    }
}

#[tactic(auto, unfolding(crate::specs::Replies::replied))]
pub fn put(reply: &mut [u8], r: Reply)
    requires { 48 ≤ length reply.old }
    ensures { reply.new ≡ replied r reply.old }
{
    word::put16(reply, 0, u16::from_le_bytes([r.kind, r.number]));
    word::put16(reply, 2, 0);
    word::put32(reply, 4, r.place);
    word::put32(reply, 8, r.first);
    word::put32(reply, 12, r.second);
    put_words(reply, r.words);
}
