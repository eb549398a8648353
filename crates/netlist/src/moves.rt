// Moving cells: which inputs of a cell get a new number is told by the table of cell kinds, whatever the new numbers are.
// The contract is an equation with model/CellSlices.
ghost use Rattle.std.specs.Prelude.{◌≡◌, ℕ, true};
ghost use Rattle.model.specs.Word.{pick};
ghost use Rattle.model.specs.Circuit.{cell_row, names};
ghost use Rattle.model.specs.CellSlices.{rewired};

use model::Cell;

// An input, or its new number where it names a cell.
fn input(names: bool, new: u16, j: u16) -> u16
    ensures { result ≡ pick names new j }
{
    if names { new } else { j }
}

// A cell with the new numbers of its inputs, of which those that name no cell stay.
pub fn rewired(c: Cell, a: u16, b: u16) -> Cell
    ensures { (f : ℕ → ℕ) → (names (cell_row c.kind).a ≡ true → a ≡ f c.a) → (names (cell_row c.kind).b ≡ true → b ≡ f c.b) → result ≡ rewired f c }
{
    let row = crate::kinds::cell_row(c.kind);
    Cell {
        a: input(crate::kinds::names(row.a), a, c.a),
        b: input(crate::kinds::names(row.b), b, c.b),
        ..c
    }
}
