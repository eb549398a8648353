// The regions of a part's netlist file, told by the kinds of its cells.
ghost use Rattle.model.specs.Refusals.{Accepted};
ghost use Rattle.std.specs.Prelude.{◌≡◌, ℕ, ◌-◌, ◌≤◌};
ghost use Rattle.model.specs.Program.{Code};
ghost use Rattle.model.specs.NetlistFile.{cells_at, in_file, file_check};
ghost use Rattle.netlist.specs.Offsets.{Room};
ghost use Rattle.netlist.specs.declared.cells.Layout.TheVariants.{InFile};
ghost use Rattle.joiner.specs.Kinds.{kind_run, trimmed};
ghost use Rattle.joiner.specs.Stands.{Compiled, OwnOf};

use crate::moving::Own;
use netlist::cells::{Cells, Layout};

// How many of a file's `count` cells are of a kind, one after another, from cell `from` on.
fn run_of(file: &[u8], count: usize, kind: u8, from: usize) -> usize
    requires { Room InFile file.now count × (from ≤ count) }
    ensures { result ≡ kind_run kind (cells_at in_file file.now from (count - from)) }
{
    let cells = Cells {
        bytes: file,
        layout: Layout::InFile,
        next: from,
        end: count,
    };
    cells.take_while(|c| c.kind == kind).count()
}

// How many of them there are without those of kind 7 at the end. By number, since Cells has no next_back.
fn past_walk(file: &[u8], count: usize) -> usize
    requires { Room InFile file.now count }
    ensures { result ≡ trimmed (cells_at in_file file.now 0 count) }
{
    for i in (0..count).rev() {
        let c = netlist::cells::cell_at(file, Layout::InFile, i);
        if c.kind != 7 {
            return i + 1;
        }
    }
    0
}

// What is known of a part's own netlist: its first memory, and how many delay cells and walk cells it has.
pub fn own_of(file: &[u8]) -> Own
    requires { file_check file.now ≡ Accepted }
    ensures { (v : ℕ) (P : Code) → Compiled v P file.now → OwnOf v P file.now result }
{
    let count = word::get16(file, 2) as usize;
    let delays = run_of(file, count, 34, 3);
    let ors = run_of(file, count, 35, 3 + delays);
    let memory = 3 + delays + ors;
    let end = past_walk(file, count);
    let walk = end.saturating_sub(memory + 24);
    Own {
        memory: memory as u16,
        delays: delays as u16,
        walk: walk as u16,
    }
}
