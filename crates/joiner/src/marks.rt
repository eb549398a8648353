// The marks of a part's assignments, as the compiler's walk leaves them: told by the part's walk cells of kind 41, where they stand in the whole, and
// by what its nodes say that these are for.
ghost use Rattle.std.specs.Prelude.{◌≡◌, ◌+◌, ◌-◌, ◌<◌, ◌≤◌, leb, length};
ghost use Rattle.std.proofs.lemmas.List.Edits.{sets};
ghost use Rattle.model.specs.Word.{pick};
ghost use Rattle.model.specs.NetlistFile.{cells_at, in_list};
ghost use Rattle.netlist.specs.Offsets.{Room};
ghost use Rattle.netlist.specs.declared.cells.Layout.TheVariants.{InList};
ghost use Rattle.joiner.specs.Gates.{gate, gate_marks};

use crate::parts::first_or;
use netlist::cells::{Cells, Layout};

// The cell of an index stands next to its value's; a variable has none, and a 0 in its place, as the compiler's walk leaves it.
fn index_of(x: u16, n: u16) -> u16
    requires { n < 65535 }
    ensures { result ≡ pick (leb 16 x) (n + 1) 0 }
{
    if 16 <= x { n + 1 } else { 0 }
}

// The marks of gate n, which is for x, on a delay; an index, which is 20 as in crate::gates, has none of its own. Answers the
// next free entry.
fn put_gate(marks: &mut [u16; 800], next: usize, x: u16, delay: u16, n: u16) -> usize
    requires { (next + length (gate x delay n) ≤ 800) × (n < 65535) }
    ensures next { result ≡ next + length (gate x delay n) }
    ensures put { marks.new ≡ sets marks.old next (gate x delay n) }
{
    if x == 20 {
        return next;
    }
    let index = index_of(x, n);
    marks[next..next + 4].copy_from_slice(&[x, delay, n, index]);
    next + 4
}

// Those of the walk cells from number `from` on, up to `end`, whose gates are as many as the cells of kind 41. Answers the next free entry.
pub fn put_marks(
    marks: &mut [u16; 800],
    cells: &[u8],
    gates: &[u16],
    from: usize,
    end: usize,
    mark: usize,
) -> usize
    requires { Room InList cells.now end × (from ≤ end) × (mark + length (gate_marks from (cells_at in_list cells.now from (end - from)) gates.now) ≤ 800) }
    ensures next { result ≡ mark + length (gate_marks from (cells_at in_list cells.now from (end - from)) gates.now) }
    ensures put { marks.new ≡ sets marks.old mark (gate_marks from (cells_at in_list cells.now from (end - from)) gates.now) }
{
    let mut left = gates;
    let mut next = mark;
    let walk = Cells {
        bytes: cells,
        layout: Layout::InList,
        next: from,
        end,
    };
    for (j, c) in walk.enumerate() {
        if c.kind == 41 {
            let (x, behind) = first_or(left, 0);
            next = put_gate(marks, next, x, c.a, (from + j) as u16);
            left = behind;
        }
    }
    next
}
