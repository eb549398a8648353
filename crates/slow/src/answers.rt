// What a slow run writes and answers.
ghost use Rattle.std.specs.Prelude.{◌≡◌, ◌+◌, ◌*◌, ◌<◌, ◌≤◌, length};
ghost use Rattle.std.proofs.lemmas.List.Edits.{sets};
ghost use Rattle.model.specs.Circuit.{memory_words, memories};
ghost use Rattle.model.specs.Gates.{value_bytes, slow_size};
ghost use Rattle.slow.specs.Ring.{cells_of, word_in};

use crate::net::Net;
use crate::ring;
use netlist::cells::{Cells, Layout};

// The values of n cells at instant t, two bytes each in cell order. By number, and not over `chunks_exact_mut`: of pieces that were lent to be written a
// proof knows the lengths alone afterwards.
pub fn put_values(values: &mut [u8], n: usize, work: &[u8], t: u32)
    requires { (n ≤ 1024) × (2 * n ≤ length values.old) × (slow_size n ≤ length work.now) }
    ensures { values.new ≡ sets values.old 0 (value_bytes (λ k. word_in work.now k t) 0 n) }
{
    for k in 0..n {
        let v = ring::word_at(work, k, t);
        word::put16(values, 2 * k, v);
    }
}

// The values of the sixteen memories at instant t. j counts the memories, and no turn of the loop. Crate simulator's function of this name walks a file
// and a state; all that the two share is what is done at a memory.
pub fn words_in(net: &Net<'_>, work: &[u8], t: u32) -> [u16; 16]
    requires { (memories (cells_of net.now) ≡ 16) × (slow_size net.now.n ≤ length work.now) }
    ensures { result ≡ memory_words (cells_of net.now) 0 (λ k. word_in work.now k t) }
{
    let mut words = [0u16; 16];
    let mut j: usize = 0;
    let cells = Cells {
        bytes: net.cells,
        layout: Layout::InList,
        next: 0,
        end: net.n,
    };
    for (k, c) in cells.enumerate() {
        let v = ring::word_at(work, k, t);
        if c.kind == 40 {
            words[j] = v;
            j += 1;
        }
    }
    words
}
