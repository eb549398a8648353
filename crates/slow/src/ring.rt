// Rings of 256 words, one for each cell's values, one for the elements, and one for what each cell holds: where a word stands, reading it, putting it in.
ghost use Rattle.std.specs.Prelude.{◌≡◌, ◌+◌, ◌*◌, ◌<◌, ◌≤◌, length};
ghost use Rattle.model.specs.Word.{put16};
ghost use Rattle.model.specs.Gates.{past};
ghost use Rattle.slow.specs.Ring.{slot, word_in, held_code, held_of, held_in, held_ring};

use model::Merge;

// The byte at which the word of ring j at instant t begins.
pub fn slot(j: usize, t: u32) -> usize
    requires { j < 2049 }
    ensures { result ≡ slot j t }
{
    512 * j + 2 * ((t % 256) as usize)
}

pub fn word_at(work: &[u8], j: usize, t: u32) -> u16
    requires { (j < 2049) × (512 * j + 512 ≤ length work.now) }
    ensures { result ≡ word_in work.now j t }
{
    let at = slot(j, t);
    word::get16(work, at)
}

// The word as it was d instants before, and 0 before instant 0.
pub fn past(work: &[u8], j: usize, t: u32, d: u32) -> u16
    requires { (j < 2049) × (512 * j + 512 ≤ length work.now) }
    ensures { result ≡ past d (word_in work.now j) t }
{
    if t < d {
        return 0;
    }
    word_at(work, j, t - d)
}

pub fn put_word(work: &mut [u8], j: usize, t: u32, v: u16)
    requires { (j < 2049) × (512 * j + 512 ≤ length work.old) }
    ensures { work.new ≡ put16 work.old (slot j t) v }
{
    let at = slot(j, t);
    word::put16(work, at, v);
}

// What a cell holds, as a word. No `From`: it would have to stand beside Merge, in crate model, and the word is the ring's own.
pub fn held_code(m: Merge) -> u16
    ensures { result ≡ held_code m }
{
    word::bit(m.a) + 2 * word::bit(m.b)
}

// What cell k of n held before instant t.
pub fn held_at(work: &[u8], n: usize, k: usize, t: u32) -> Merge
    requires { (n ≤ 1024) × (k < n) × (512 * (n + 1 + k) + 512 ≤ length work.now) }
    ensures { result ≡ held_in work.now n k t }
{
    if t == 0 {
        return Merge { a: false, b: false };
    }
    let x = word_at(work, n + 1 + k, t - 1);
    let a = x % 2 == 1;
    let b = x / 2 == 1;
    Merge { a, b }
}
