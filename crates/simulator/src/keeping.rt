// Taking an instant back where 26 ends it: what the instant overwrites is kept meanwhile, in a lent list that has room for it.
// That is what each cell showed an instant ago, and the elements. Lines and held bits change only once no line is crowded.
ghost use Rattle.std.specs.Prelude.{◌≡◌, ℕ, ◌+◌, ◌-◌, ◌*◌, ◌<◌, ◌≤◌, length, drop};
ghost use Rattle.std.proofs.Math.Seq.{paste};
ghost use Rattle.model.specs.Word.{get16, put32};
ghost use Rattle.model.specs.Refusals.{refuse};
ghost use Rattle.model.specs.NetlistFile.{cell_limit, net_of};
ghost use Rattle.model.specs.State.{base, before_at, instant_of, up_to, crowding};
ghost use Rattle.simulator.specs.Fits.{Fits};
ghost use Rattle.simulator.specs.Keeping.{Roomy, Kept, taken_back};

use crate::source::Source;
use model::sizes::{BLOCK_HEADER, ELEMENTS, MOST_CELLS};
use model::{Checked, Format, refuse};
use state::{lines, wires};

// The elements, and a word for each cell.
pub const KEPT: usize = ELEMENTS + 2 * MOST_CELLS;

// The n bytes from i on become those of another list from j on. A function of its own: what is kept and taken back is told by `paste`.
pub fn copy(to: &mut [u8], i: usize, from: &[u8], j: usize, n: usize)
    requires { (i + n ≤ length to.old) × (j + n ≤ length from.now) }
    ensures { to.new ≡ paste to.old i (drop j from.now) n }
{
    word::copy(&mut to[i..i + n], &from[j..j + n]);
}

// Here and in taking back k numbers a cell of a state and a word of the list, each at a place of its own: of chunks that were lent to be written a proof
// knows the lengths alone afterwards.
fn keep_values(format: Format, kept: &mut [u8], state: &[u8], n: usize)
    requires { (n ≤ cell_limit) × Roomy kept.old × (base format n ≤ length state.now) }
    ensures { (k : ℕ) → k < n → get16 kept.new (512 + 2 * k) ≡ before_at format state.now k }
{
    for k in 0..n {
        let v = wires::before_at(format, state, k);
        word::put16(kept, ELEMENTS + 2 * k, v);
    }
}

// Comes before the instant. A list that is too short keeps nothing, and an empty one stands for none: `Roomy` of specs/Keeping, by which the contracts tell
// the two apart, asks for the length alone. The list is lent on to each instant, where an Option of it would be taken apart and put together again.
pub fn keep(format: Format, kept: &mut [u8], state: &[u8], n: usize)
    requires { (n ≤ cell_limit) × (base format n + 512 ≤ length state.now) }
    ensures { Roomy kept.old → Kept format n state.now kept.new }
{
    if KEPT <= kept.len() {
        keep_values(format, kept, state, n);
        copy(kept, 0, state, wires::base(format, n), ELEMENTS);
    }
}

// Refusal 26, where the cells show their values of the instant and no line has taken its input in. k and `at` are as in crate::instant.
pub fn check_lines(source: &Source<'_>, state: &[u8]) -> Checked
    requires { Fits source.now.format source.now.file.now source.now.h state.now }
    ensures { result ≡ crowding source.now.format (net_of source.now.file.now) state.now state.now }
{
    let mut at = BLOCK_HEADER;
    for k in 0..source.h.count {
        let c = netlist::cells::cell_from(source.file, at);
        if (c.kind == 34) && lines::is_crowded(source.format, c, state, k) {
            return refuse(26, k);
        }
        at = netlist::cells::next_offset(at);
    }
    Ok(())
}

fn take_values_back(format: Format, state: &mut [u8], kept: &[u8], n: usize)
    requires { (n ≤ cell_limit) × Roomy kept.now × (base format n ≤ length state.old) }
    ensures { state.new ≡ up_to (taken_back format kept.now) n state.old }
{
    for k in 0..n {
        let v = wires::before_at(format, state, k);
        let at = wires::base(format, k);
        word::put16(state, at, v);
        let w = word::get16(kept, ELEMENTS + 2 * k);
        word::put16(state, at + 2, w);
    }
}

// The state of n cells before the instant.
pub fn take_back(format: Format, state: &mut [u8], kept: &[u8], n: usize)
    requires { (n ≤ cell_limit) × Roomy kept.now × (base format n + 512 ≤ length state.old) }
    ensures { state.new ≡ put32 (paste (up_to (taken_back format kept.now) n state.old) (base format n) kept.now 512) 0 (instant_of state.old - 1) }
{
    let t = word::get32(state, 0);
    take_values_back(format, state, kept, n);
    copy(state, wires::base(format, n), kept, 0, ELEMENTS);
    word::put32(state, 0, t.saturating_sub(1));
}
