// The words of a text, one after another, and refusal 17. Each contract is an equation with the definition of its name in model/Text, or in
// specs/Scanning; a word is handed on as a part of the text. `|` and `&` stand between tests where both sides are cheap.
#![tactic(auto)]

ghost use Rattle.std.specs.Prelude.{◌≡◌, true, ◌+◌, ◌≤◌, ◌<◌, length, get_or, drop, MatchOption};
ghost use Rattle.model.specs.Text.{sign, blank, digit, letter, run_length, all_digits, value_from, word_code, two_code, one_code, limit_after, run_token, words_of, outside};
ghost use Rattle.scanner.specs.Scanning.{after_blanks, number_of, name_of, word_here, next_word};

use model::texts::Token;
use model::{Checked, refuse};

// A word: its token, the place of its first byte and the place after its last.
#[derive(Drop)]
pub struct Scanned {
    pub token: Token,
    pub place: usize,
    pub end: usize,
}

// Characters -----------------------------------------------------------------------------------------------------------------------------

#[tactic(auto, unfolding(model::specs::Text::blank))]
fn is_blank(c: u8) -> bool
    ensures { result ≡ blank c }
{
    (c == b' ') | (c == b'\n')
}

#[tactic(auto, unfolding(model::specs::Text::digit))]
fn is_digit(c: u8) -> bool
    ensures { result ≡ digit c }
{
    c.is_ascii_digit()
}

#[tactic(auto, unfolding(model::specs::Text::letter))]
fn is_letter(c: u8) -> bool
    ensures { result ≡ letter c }
{
    c.is_ascii_alphabetic()
}

// The bytes from i on, none behind the end.
fn behind(text: &[u8], i: usize) -> &[u8]
    ensures { result.now ≡ drop i text.now }
{
    text.get(i..).unwrap_or(&[])
}

// The place after the blanks from i on. The first test spares the chain where there is none, as before a sign of a dense text.
fn skip_blanks(text: &[u8], i: usize) -> usize
    ensures { result ≡ after_blanks i text.now }
{
    if i < text.len() && !is_blank(text[i]) {
        return i;
    }
    i + behind(text, i).iter().take_while(|c| is_blank(**c)).count()
}

// The place after the letters and digits from i on. Like the blanks', it is a chain over take_while, which takes the test already: a function over both
// would take the closure once more.
fn run_end(text: &[u8], i: usize) -> usize
    ensures { result ≡ i + run_length (drop i text.now) }
{
    i + behind(text, i)
        .iter()
        .take_while(|c| is_letter(**c) | is_digit(**c))
        .count()
}

// Runs of letters and digits -------------------------------------------------------------------------------------------------------------

fn all_digits(w: &[u8]) -> bool
    ensures { result ≡ all_digits w.now }
{
    w.iter().all(|c| is_digit(*c))
}

// The number that digits stand for.
fn value(w: &[u8]) -> u32
    requires { (length w.now ≤ 5) × (all_digits w.now ≡ true) }
    ensures { result ≡ value_from 0 w.now }
{
    let mut v: u32 = 0;
    for c in w {
        v = 10 * v + u32::from(*c - b'0');
    }
    v
}

// The number that a run is, if it is one.
fn number(w: &[u8], limit: u16) -> Option<u16>
    ensures { result ≡ number_of limit w.now }
{
    let n = w.len();
    if (n == 0) | (5 < n) {
        return None;
    }
    if !all_digits(w) {
        return None;
    }
    if (1 < n) & (w[0] == b'0') {
        return None;
    }
    // it fits, for the limit does: a try_from would look twice
    let v = value(w);
    if v <= u32::from(limit) {
        Some(v as u16)
    } else {
        None
    }
}

// The number of the variable that a run names, if it names one.
fn name(w: &[u8]) -> Option<u16>
    ensures { result ≡ name_of w.now }
{
    match w {
        [b'x', digits @ ..] => number(digits, 15),
        _ => None,
    }
}

// The code of a word of the language.
#[tactic(auto, using(crate::proofs::Codes::by_length))]
fn word_code(w: &[u8]) -> Option<u8>
    ensures { MatchOption result (word_code w.now ≡ 0) (λ code. code ≡ word_code w.now) }
{
    match w {
        b"ok" => Some(16),
        b"tick" => Some(17),
        b"if" => Some(21),
        b"while" => Some(22),
        b"repeat" => Some(23),
        b"then" => Some(32),
        b"else" => Some(33),
        b"do" => Some(34),
        b"until" => Some(35),
        b"end" => Some(36),
        _ => None,
    }
}

#[tactic(auto, unfolding(model::specs::Text::limit_after))]
fn limit_after(previous: u8) -> u16
    ensures { result ≡ limit_after previous }
{
    if (previous == 37) | (previous == 17) {
        255
    } else {
        65535
    }
}

// Not inlined: the step over a sign would keep the registers for it.
#[inline(never)]
fn run_token(w: &[u8], previous: u8) -> Token
    ensures { result ≡ run_token previous w.now }
{
    if let Some(value) = number(w, limit_after(previous)) {
        return Token { code: 1, value };
    }
    if let Some(value) = name(w) {
        return Token { code: 2, value };
    }
    sign(word_code(w))
}

// A token that has no value. Codes are numbers, 0 outside the language: token_at of model/Text has them so, and with it each contract down to read_text's.
fn sign(code: Option<u8>) -> Token
    ensures { MatchOption code (result ≡ sign 0) (λ c. result ≡ sign c) }
{
    Token {
        code: code.unwrap_or(0),
        value: 0,
    }
}

// Signs ----------------------------------------------------------------------------------------------------------------------------------

// The sign of two characters that some bytes begin with.
#[tactic(auto, unfolding(model::specs::Text::two_code))]
fn two_code(s: &[u8]) -> Option<u8>
    ensures { MatchOption result (two_code (get_or s.now 0 0) (get_or s.now 1 0) ≡ 0) (λ code. (0 < code) × (code ≡ two_code (get_or s.now 0 0) (get_or s.now 1 0))) }
{
    match s {
        [b':', b'=', ..] => Some(18),
        [b'|', b'|', ..] => Some(20),
        _ => None,
    }
}

// The sign of one character.
#[tactic(auto, unfolding(model::specs::Text::one_code))]
fn one_code(c: u8) -> Option<u8>
    ensures { MatchOption result (one_code c ≡ 0) (λ code. code ≡ one_code c) }
{
    match c {
        b'!' => Some(3),
        b'+' => Some(4),
        b'-' => Some(5),
        b'&' => Some(6),
        b'|' => Some(7),
        b'=' => Some(8),
        b'<' => Some(9),
        b';' => Some(19),
        b'@' => Some(37),
        b'(' => Some(38),
        b')' => Some(39),
        b'{' => Some(40),
        b'}' => Some(41),
        _ => None,
    }
}

// Words ----------------------------------------------------------------------------------------------------------------------------------

// The word at a place that has no blank: a run, or the longest sign.
fn word_at(text: &[u8], place: usize, previous: u8) -> Scanned
    requires { place < length text.now }
    ensures { result ≡ word_here previous place text.now }
{
    let end = run_end(text, place);
    if place < end {
        let token = run_token(&text[place..end], previous);
        return Scanned { token, place, end };
    }
    let (code, size) = match two_code(behind(text, place)) {
        Some(code) => (Some(code), 2),
        None => (one_code(text[place]), 1),
    };
    Scanned {
        token: sign(code),
        place,
        end: place + size,
    }
}

// The first word from a place on, after a token of code `previous`.
#[tactic(auto, unfolding(crate::specs::Scanning::next_word))]
fn next_word(text: &[u8], from: usize, previous: u8) -> Option<Scanned>
    ensures { result ≡ next_word previous from text.now }
{
    let place = skip_blanks(text, from);
    if place < text.len() {
        Some(word_at(text, place, previous))
    } else {
        None
    }
}

// The words of a text from byte `at` on, after a token of code `previous`; before the first there is code 0, as in words_of of model/Text.
#[derive(Clone, Copy)]
pub struct Words<'a> {
    pub text: &'a [u8],
    pub at: usize,
    pub previous: u8,
}

impl<'a> Words<'a> {
    // All words of a text.
    pub fn of(text: &'a [u8]) -> Words<'a>
        ensures from { (result.text.now ≡ text.now) × (result.at ≡ 0) × (result.previous ≡ 0) }
    {
        Words {
            text,
            at: 0,
            previous: 0,
        }
    }
}

impl<'a> Iterator for Words<'a> {
    ghost use Rattle.std.specs.Prelude.{◌-◌, length};
    ghost use Rattle.std.specs.Iterator.{at_most};
    ghost use Rattle.scanner.specs.Scanning.{Steps};

    type Item = Scanned;

    ghost next_gives = { Steps };

    ghost remaining = { λ ws. at_most (length ws.text.now - ws.at) };

    fn next(&mut self) -> Option<Scanned> {
        let word = next_word(self.text, self.at, self.previous)?;
        self.at = word.end;
        self.previous = word.token.code;
        Some(word)
    }
}

// Refusal 17, but for the text's length: the first word that is outside the language.
pub fn check_words(text: &[u8]) -> Checked
    ensures { result ≡ outside (words_of text.now) }
{
    for next in Words::of(text) {
        if next.token.code == 0 {
            return refuse(17, next.place);
        }
    }
    Ok(())
}
