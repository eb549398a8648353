// Runs of cells, one for each variable of a set. `write k cs s` is the list s with the cells cs put in from cell k on.
ghost use Rattle.std.specs.Prelude.{◌≡◌, [], ◌∷◌, ◌+◌, ◌*◌, ◌≤◌, length};
ghost use Rattle.model.specs.Circuit.{cell};
ghost use Rattle.model.specs.Functional.{each, many, choices};
ghost use Rattle.compiler.specs.Writes.{write};
ghost use Rattle.functional.specs.Sets.{has, row_cell};

use crate::sets::Wires;
use compiler::walk::put;

// A kind, and the inputs of each variable's cell.
#[derive(Clone, Copy)]
pub struct Row {
    pub kind: u8,
    pub a: Wires,
    pub b: Wires,
}

// Puts a cell for each variable of a set in, from cell k on; answers the next cell. Variable x is a bit of the set, and an index of both arrays.
pub fn put_each(cells: &mut [u8], set: u16, row: Row, k: u16) -> u16
    requires { (6 * (k + many (has set)) ≤ length cells.old) × (k + 16 ≤ 65535) }
    ensures cells { cells.new ≡ write k (each (has set) (row_cell row)) cells.old }
    ensures next { result ≡ k + many (has set) }
{
    let kind = row.kind;
    let a = row.a.of;
    let b = row.b.of;
    let mut at = k;
    for x in 0..16 {
        if crate::sets::has(set, x) {
            put(cells, at, kind, 0, a[x], b[x]);
            at += 1;
        }
    }
    at
}

// For each variable of a set of n a first cell, then for each a second, then for each the or of the two; answers the next cell.
pub fn put_choices(cells: &mut [u8], set: u16, first: Row, second: Row, k: u16) -> u16
    requires { (6 * (k + many (has set) + many (has set) + many (has set)) ≤ length cells.old) × (k + 48 ≤ 65535) }
    ensures cells { cells.new ≡ write k (choices (has set) (row_cell first) (row_cell second) k) cells.old }
    ensures next { result ≡ k + many (has set) + many (has set) + many (has set) }
{
    let none = crate::sets::same(0);
    let k2 = put_each(cells, set, first, k);
    let k3 = put_each(cells, set, second, k2);
    let ors = Row {
        kind: 7,
        a: crate::sets::placed(set, k, none),
        b: crate::sets::placed(set, k2, none),
    };
    put_each(cells, set, ors, k3)
}
