// The fanout of cells: what a cell that is high is an input of is scheduled, a delay's output or a cell's evaluation.
// Widening casts are `as`, with which proofs compute.
ghost use Rattle.std.specs.Prelude.{◌≡◌, ◌<◌, ◌≤◌};
ghost use Rattle.engine_laws.specs.Fanout.{Room, scheduled, cell_in, InRow, Fanout, propagated};
ghost use Rattle.engine.specs.Lent.{SameLists, events_of};

use crate::sets;
use crate::wheel::Wheel;

// The fanouts of all cells: that of cell c begins with entry `from[c]`, and ends where the next one begins.
#[derive(Clone, Copy)]
pub struct Fanouts<'a> {
    pub from: &'a [u16],
    pub entries: &'a [u32],
}

impl Wheel<'_> {
    // One entry of a fanout is scheduled: 16 words more behind the rows are for the cells that are to be evaluated in this instant, `held` is what each
    // cell holds.
    fn schedule(&mut self, held: &mut [u8], u: u32, f: u32)
        requires { Room self.old.rows.now self.old.tag.now self.old.occupied.now held.old × (self.old.width ≤ 4) × (u ≤ 2000000) × (cell_in f < 1024) × InRow 4 f }
        ensures events { events_of self.new held.new ≡ scheduled self.old.width u f (events_of self.old held.old) }
        ensures lists { SameLists self.old self.new }
    {
        let j = (f % 65536) as usize;
        let d = f / 65536 % 256;
        if d == 0 {
            let side = (f / 16777216) as u8;
            held[j] |= side;
            let at = 131072 + j;
            sets::put(self.rows, at);
            return;
        }
        self.enter(u + d, j);
    }

    // Cell c is high at u: its whole fanout is scheduled.
    pub fn propagate(&mut self, held: &mut [u8], fanouts: Fanouts<'_>, c: usize, u: u32)
        requires { Room self.old.rows.now self.old.tag.now self.old.occupied.now held.old × (self.old.width ≤ 4) × (u ≤ 2000000) × (c < 1024) × Fanout fanouts.from.now fanouts.entries.now c }
        ensures events { events_of self.new held.new ≡ propagated fanouts.entry.from.now fanouts.entry.entries.now self.old.width u c (events_of self.old held.old) }
        ensures lists { SameLists self.old self.new }
    {
        let start = fanouts.from[c] as usize;
        let end = fanouts.from[c + 1] as usize;
        for f in &fanouts.entries[start..end] {
            self.schedule(held, u, *f);
        }
    }
}
