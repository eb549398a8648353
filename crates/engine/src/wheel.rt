// The wheel: which delays put out at which instant. 512 rows of 4 words; the row of instant w is w % 512, and is empty unless `tag` says w there.
// Widening casts are `as`, with which proofs compute.
ghost use Rattle.std.specs.Prelude.{◌≡◌, ◌+◌, ◌*◌, ◌%◌, ◌<◌, ◌≤◌, ℕ, List, eqb, length, get_or, set, MatchOption};
ghost use Rattle.engine_laws.specs.Lines.{Lined, Numbered, Unset};
ghost use Rattle.engine_laws.specs.Sets.{inserted, Free};
ghost use Rattle.engine_laws.specs.Wheel.{Rows, puts_in, opened};
ghost use Rattle.engine.specs.Lent.{SameLists};

use crate::sets;

// The rows, of each of which `width` words are in use; the instant that each row is of; and the instants, modulo 256, at which a delay puts out.
// The lists are the caller's.
#[derive(Drop)]
pub struct Wheel<'a> {
    pub rows: &'a mut [u64],
    pub tag: &'a mut [u32],
    pub occupied: &'a mut [u64],
    pub width: usize,
}

impl Wheel<'_> {
    // The row of instant w is there, empty if it was not.
    pub fn open_row(&mut self, w: u32)
        requires { Rows self.old.rows.now self.old.tag.now × (self.old.width ≤ 4) }
        ensures rows { self.new.rows.now ≡ opened self.old.rows.now self.old.tag.now self.old.width w }
        ensures tag { self.new.tag.now ≡ set self.old.tag.now (w % 512) w }
        ensures occupied { self.new.occupied.now ≡ self.old.occupied.now }
        ensures lists { SameLists self.old self.new }
    {
        let q = (w % 512) as usize;
        if self.tag[q] == w {
            return;
        }
        self.rows[4 * q..4 * q + self.width].fill(0);
        self.tag[q] = w;
    }

    // Delay r puts out at w.
    pub fn enter(&mut self, w: u32, r: usize)
        requires { Rows self.old.rows.now self.old.tag.now × (self.old.width ≤ 4) × (r < 256) × (4 ≤ length self.old.occupied.now) }
        ensures rows { self.new.rows.now ≡ inserted (opened self.old.rows.now self.old.tag.now self.old.width w) (256 * (w % 512) + r) }
        ensures tag { self.new.tag.now ≡ set self.old.tag.now (w % 512) w }
        ensures occupied { self.new.occupied.now ≡ inserted self.old.occupied.now (w % 256) }
        ensures lists { SameLists self.old self.new }
    {
        self.open_row(w);
        let o = (w % 256) as usize;
        sets::put(self.occupied, o);
        let at = 256 * ((w % 512) as usize) + r;
        sets::put(self.rows, at);
    }

    // Byte k of the line of delay r, which is d, comes in at instant 512.
    fn byte_in(&mut self, byte: u8, k: usize, d: u8, r: usize)
        requires { Rows self.old.rows.now self.old.tag.now × (4 ≤ length self.old.occupied.now) × (k < 32) × (1 ≤ d) × (r < 64 * self.old.width) × (self.old.width ≤ 4) }
        ensures lined { (s : List ℕ) (at : ℕ) (rows tag : List ℕ) → get_or s (at + k) 0 ≡ byte → Lined s at d self.old.width r (8 * k) rows tag self.old.rows.now self.old.tag.now → Lined s at d self.old.width r (8 * k + 8) rows tag self.new.rows.now self.new.tag.now }
        ensures lists { SameLists self.old self.new }
    {
        if byte == 0 {
            return;
        }
        for i in 0..8usize {
            if (byte >> (i as u32)) % 2 == 1 {
                let w = (512 + (d as usize) - (8 * k + i)) as u32;
                self.enter(w, r);
            }
        }
    }

    // The line of delay r, which is d, comes in at instant 512; its bytes begin at `at`.
    pub fn line_in(&mut self, state: &[u8], at: usize, d: u8, r: usize)
        requires { Rows self.old.rows.now self.old.tag.now × (4 ≤ length self.old.occupied.now) × (at + 32 ≤ length state.now) × (at ≤ 100000) × (1 ≤ d) × (r < 64 * self.old.width) × (self.old.width ≤ 4) × Lined state.now at d self.old.width r 0 self.old.rows.now self.old.tag.now self.old.rows.now self.old.tag.now }
        ensures lined { Lined state.now at d self.old.width r 256 self.old.rows.now self.old.tag.now self.new.rows.now self.new.tag.now }
        ensures lists { SameLists self.old self.new }
    {
        for (k, byte) in state[at..at + 32].iter().enumerate() {
            self.byte_in(*byte, k, d, r);
        }
    }

    // A compact line of delay r comes in at instant 512; its pulse comes out in `left` instants; 0, in a state's byte, is none.
    pub fn left_in(&mut self, left: u8, r: usize)
        requires { Rows self.old.rows.now self.old.tag.now × (4 ≤ length self.old.occupied.now) × (r < 64 * self.old.width) × (self.old.width ≤ 4) × Unset self.old.rows.now self.old.tag.now r }
        ensures numbered { Numbered left self.old.width r self.old.rows.now self.old.tag.now self.new.rows.now self.new.tag.now }
        ensures lists { SameLists self.old self.new }
    {
        if 0 < left {
            let w = 512 + (left as u32);
            self.enter(w, r);
        }
    }
}

// Whether delay r puts out at w.
pub fn puts_out(wheel: &[u64], tag: &[u32], w: u32, r: usize) -> bool
    requires { (2048 ≤ length wheel.now) × (512 ≤ length tag.now) × (r < 256) }
    ensures { result ≡ eqb (puts_in wheel.now tag.now w r) 1 }
{
    let q = (w % 512) as usize;
    if tag[q] != w {
        return false;
    }
    let at = 256 * q + r;
    sets::has(wheel, at)
}

// An instant after t before which no delay puts out, where `occupied` has, modulo 256, every instant after t at which one does.
pub fn next_due(occupied: &[u64], t: u32) -> Option<u32>
    requires { (4 ≤ length occupied.now) × (t ≤ 1001000) }
    ensures { MatchOption result (Free occupied.now t (t + 257)) (λ w. (t < w) × (w < 2000000) × Free occupied.now t w) }
{
    let mut w = t + 1;
    for _ in 0..5u32 {
        let o = w % 256;
        let x = occupied[(o / 64) as usize] >> (o % 64);
        if x != 0 {
            return Some(w + x.trailing_zeros());
        }
        w += 64 - w % 64;
    }
    None
}
