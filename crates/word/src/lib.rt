// Leaves: the operators on words, numbers of two and four bytes in slices, bytes put into a slice, and the sum of a block's words.
// Each contract is an equation with the definition of the same name in model/Word, or with word_sum in model/NetlistFile.
#![tactic(auto)]

ghost use Rattle.std.specs.Prelude.{◌≡◌, ◌+◌, ◌*◌, ◌%◌, ◌<◌, ◌≤◌, length, take, drop};
ghost use Rattle.std.proofs.lemmas.List.Edits.{sets};
ghost use Rattle.model.specs.Word.{biased, operate, bit, get16, put16, get32, put32};
ghost use Rattle.model.specs.NetlistFile.{word_sum};

#[tactic(auto, unfolding(model::specs::Word::bit))]
pub fn bit(b: bool) -> u16
    ensures { result ≡ bit b }
{
    u16::from(b)
}

// A word's number in two's complement, with 32,768 added.
#[tactic(auto, unfolding(model::specs::Word::biased))]
fn biased(w: u16) -> u16
    ensures { result ≡ biased w }
{
    w.wrapping_add(32768)
}

// The operators of kinds 3 to 9, which stay numbers: definition `operate` takes one, and files have them so.
#[tactic(auto, unfolding(model::specs::Word::operate))]
pub fn operate(kind: u8, x: u16, y: u16) -> u16
    ensures { result ≡ operate kind x y }
{
    match kind {
        3 => !x,
        4 => x.wrapping_add(y),
        5 => x.wrapping_sub(y),
        6 => x & y,
        7 => x | y,
        8 => bit(x == y),
        _ => bit(biased(x) < biased(y)),
    }
}

// Numbers in bytes, a pair of functions for each size: std's from_le_bytes and to_le_bytes are methods of each number type and of no trait, so one
// generic pair would need a trait of our own with a law for each size, and would be no shorter.
#[tactic(auto, unfolding(model::specs::Word::get16))]
pub fn get16(s: &[u8], i: usize) -> u16
    requires { i + 1 < length s.now }
    ensures { result ≡ get16 s.now i }
{
    u16::from_le_bytes([s[i], s[i + 1]])
}

#[tactic(auto, unfolding(model::specs::Word::put16))]
pub fn put16(s: &mut [u8], i: usize, v: u16)
    requires { i + 1 < length s.old }
    ensures { s.new ≡ put16 s.old i v }
{
    let [low, high] = v.to_le_bytes();
    s[i] = low;
    s[i + 1] = high;
}

#[tactic(auto, unfolding(model::specs::Word::get16, model::specs::Word::get32))]
pub fn get32(s: &[u8], i: usize) -> u32
    requires { i + 3 < length s.now }
    ensures { result ≡ get32 s.now i }
{
    u32::from_le_bytes([s[i], s[i + 1], s[i + 2], s[i + 3]])
}

#[tactic(auto, unfolding(model::specs::Word::put16, model::specs::Word::put32))]
pub fn put32(s: &mut [u8], i: usize, v: u32)
    requires { i + 3 < length s.old }
    ensures { s.new ≡ put32 s.old i v }
{
    put_bytes(s, i, &v.to_le_bytes());
}

// The bytes of a list become another's, which is as long. Number by number: lists that are lent apart are copied by memcpy so, where the slice's own method
// asks for memmove, which the archive for C does without.
pub fn copy(to: &mut [u8], from: &[u8])
    requires { length to.old ≡ length from.now }
    ensures { to.new ≡ from.now }
{
    for k in 0..from.len() {
        to[k] = from[k];
    }
}

// Bytes one after another, from `at` on; answers the place after them.
pub fn put_bytes(out: &mut [u8], at: usize, bytes: &[u8]) -> usize
    requires { at + length bytes.now ≤ length out.old }
    ensures next { result ≡ at + length bytes.now }
    ensures out { out.new ≡ sets out.old at bytes.now }
{
    let end = at + bytes.len();
    out[at..end].copy_from_slice(bytes);
    end
}

// The sum of n words of two bytes, the first of them at byte `from`.
pub fn sum16(s: &[u8], from: usize, n: usize) -> u16
    requires { from + 2 * n ≤ length s.now }
    ensures { result ≡ word_sum (take (2 * n) (drop from s.now)) % 65536 }
{
    let mut sum: u16 = 0;
    for word in s[from..from + 2 * n].chunks_exact(2) {
        sum = sum.wrapping_add(get16(word, 0));
    }
    sum
}
