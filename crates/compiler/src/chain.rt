// Wires joined by ors of a kind, one wire after another.
ghost use Rattle.std.specs.Prelude.{◌≡◌, ◌+◌, ◌*◌, ◌<◌, ◌≤◌, List, ◌∷◌, ℕ, Some, None, length, unwrap_or};
ghost use Rattle.compiler.specs.Walk.{word};
ghost use Rattle.compiler.specs.Ors.{Chaining};

use crate::walk::Word;

// The kind of the ors, the wire of what has been joined, if anything has, and the next cell.
#[derive(Clone, Copy)]
pub struct Chain {
    pub kind: u8,
    pub so_far: Option<u16>,
    pub next: u16,
}

impl Chain {
    // Nothing yet, whose ors go to cells from n on.
    pub fn new(kind: u8, n: u16) -> Chain
        ensures { result ≡ record { kind = kind; so_far = None; next = n } }
    {
        Chain {
            kind,
            so_far: None,
            next: n,
        }
    }

    // One more wire: with what has been joined it makes an or.
    pub fn join(&mut self, cells: &mut [u8], wire: u16)
        requires { (a : ℕ) → self.old.so_far ≡ Some a → (self.old.next < 65535) × (6 * self.old.next + 6 ≤ length cells.old) }
        ensures { (kind none n : ℕ) (ws left before : List ℕ) → Chaining kind none n ws (wire ∷ left) before cells.old self.old → Chaining kind none n ws left before cells.new self.new }
    {
        match self.so_far {
            None => self.so_far = Some(wire),
            Some(a) => {
                crate::walk::put(cells, self.next, self.kind, 0, a, wire);
                self.so_far = Some(self.next);
                self.next += 1;
            }
        }
    }

    // The wire of them all, or the one that stands where there is none, and the next cell.
    pub fn end(self, none: u16) -> Word
        ensures { result ≡ word (unwrap_or self.so_far none) self.next }
    {
        Word {
            wire: self.so_far.unwrap_or(none),
            cell: self.next,
        }
    }
}
