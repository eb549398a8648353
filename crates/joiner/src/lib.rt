// Compiling by parts: programs that were compiled one by one, joined into the netlist file of their sequence, in a lent buffer.
// The parts' cells are moved from their files to their new numbers; only the ors that join assignments are made anew, by the compiler's own functions.
// The call has no requires; its contract is an equation with model/PartCalls.
// Most widening casts are `as`, and hold by computation: a From is one more equation to rewrite by.
#![tactic(auto)]

ghost use Rattle.std.specs.Prelude.{◌≡◌};
ghost use Rattle.model.specs.PartCalls.{parts_in, join_call};

pub mod parts; // where parts stand in the lent bytes
pub mod checks; // the parts' own refusals, 29, 30 and 31
pub mod owning; // the regions of a part's file
pub mod moving; // a part's cells, moved to their new numbers
pub mod gates; // what a part's cells of kind 41 are for
pub mod marks; // the marks of its assignments
pub mod joining; // the parts put in one after another, and the netlist of the whole

use crate::parts::Parts;
use model::sizes::COMPILED_MOST;
use model::{Checked, Options, Refusal, Written};

// Joins parts: of each 27, 19 to 21, 1 to 8, 22, 24 and 25, and 9 to 12; 29, 30, 31; 14. The lent bytes are each part's program and its netlist file,
// the lengths are those of these, in that order, and each part has its pulse length.
pub fn join(
    options: Options,
    lengths: &[u32],
    pulses: &[u8],
    parts: &[u8],
    netlist: &mut [u8],
) -> Result<Written, Refusal>
    ensures answer { result ≡ (join_call options (parts_in lengths.now pulses.now parts.now) netlist.old).answer }
    ensures lent { netlist.new ≡ (join_call options (parts_in lengths.now pulses.now parts.now) netlist.old).lent }
{
    let parts = Parts {
        lengths,
        pulses,
        bytes: parts,
    };
    checks::check_parts(options, parts)?;
    let mut cells = [0u8; COMPILED_MOST];
    let made = joining::put_netlist(&mut cells, parts);
    netlist::write_file(
        netlist,
        &cells,
        usize::from(made.count),
        u16::from(parts.pulse()),
        made.finish,
    )
}
