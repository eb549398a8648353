// Beginning: instant 0 of a netlist file that is accepted, on a state of its size.
// It is an instant with a start pulse, from a state with nothing in flight.
ghost use Rattle.std.specs.Prelude.{◌≡◌, ◌+◌, ◌*◌, ◌<◌, ◌≤◌, length, take};
ghost use Rattle.std.proofs.lemmas.List.Edits.{sets};
ghost use Rattle.model.specs.Circuit.{memories};
ghost use Rattle.model.specs.NetlistFile.{cells_of, net_of};
ghost use Rattle.model.specs.State.{first_value, up_to, shown, word_bytes, begin_state};
ghost use Rattle.model.specs.Calls.{word_at};
ghost use Rattle.simulator.specs.Fits.{Fits, Holds};

use crate::instant;
use crate::source::Source;
use model::Cell;
use model::sizes::{BLOCK_HEADER, ELEMENTS, START_WORDS, VARIABLES};
use state::wires;

// The start words of the elements, which follow the sixteen, are put in from i on. Crate slow's are in its rings: what the two share is the one line.
fn put_elements(state: &mut [u8], i: usize, words: &[u8])
    requires { (i + 512 ≤ length state.old) × (544 ≤ length words.now) }
    ensures { state.new ≡ sets state.old i (word_bytes (word_at words.now) 16 256) }
{
    word::copy(&mut state[i..i + ELEMENTS], &words[VARIABLES..START_WORDS]);
}

// What cell k, which is c, shows at instant 0; j memories stand below it.
fn first_value(source: &Source<'_>, c: Cell, words: &[u8], state: &[u8], k: usize, j: usize) -> u16
    requires { Holds source.now.format source.now.file.now source.now.h state.now k c × (544 ≤ length words.now) × (c.kind ≡ 40 → j < 16) }
    ensures { memories (take k (cells_of source.now.file.now)) ≡ j → result ≡ first_value source.now.format (net_of source.now.file.now) (word_at words.now) state.now k }
{
    if c.kind == 40 {
        word::get16(words, 2 * j)
    } else {
        instant::next_value(source, true, c, state, k)
    }
}

// The k-th memory is variable k, so memories are counted on the way: j counts them, and no turn of the loop. k and `at` are as in crate::instant.
fn show_first(source: &Source<'_>, words: &[u8], state: &mut [u8])
    requires { Fits source.now.format source.now.file.now source.now.h state.old × (544 ≤ length words.now) }
    ensures { state.new ≡ up_to (shown source.now.format (net_of source.now.file.now) (first_value source.now.format (net_of source.now.file.now) (word_at words.now))) source.now.h.count state.old }
{
    let mut j = 0;
    let mut at = BLOCK_HEADER;
    for k in 0..source.h.count {
        let c = netlist::cells::cell_from(source.file, at);
        let v = first_value(source, c, words, state, k, j);
        at = netlist::cells::next_offset(at);
        instant::store(source, c, at, state, k);
        let to = wires::base(source.format, k);
        word::put16(state, to, v);
        j += usize::from(c.kind == 40);
    }
}

// Evaluates instant 0. Every line is empty, so 26 has no place here.
pub fn begin_state(source: &Source<'_>, words: &[u8], state: &mut [u8])
    requires { Fits source.now.format source.now.file.now source.now.h state.old × (544 ≤ length words.now) }
    ensures { state.new ≡ begin_state source.now.format (net_of source.now.file.now) (word_at words.now) state.old }
{
    let end = wires::base(source.format, source.h.count);
    put_elements(state, end, words);
    netlist::blocks::clear(state, 0, end);
    show_first(source, words, state);
    let _ = instant::settle_all(source, state);
}
