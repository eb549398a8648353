// The table of cell kinds in code, and what it tells of a kind and of a use.
// Each contract is an equation with model/Circuit and model/NetlistFile.
ghost use Rattle.std.specs.Prelude.{◌≡◌, not, ◌||◌};
ghost use Rattle.model.specs.Circuit.{row, cell_row, control, merges, names};
ghost use Rattle.model.specs.NetlistFile.{of_array};

use model::kinds::{CellRow, Use};

// A row of the table in one line.
fn row(control: bool, delay: Use, a: Use, b: Use) -> CellRow
    ensures { result ≡ row control delay a b }
{
    CellRow {
        control,
        delay,
        a,
        b,
    }
}

// The table: the row of a kind.
pub fn cell_row(kind: u8) -> CellRow
    ensures { result ≡ cell_row kind }
{
    match kind {
        1 => row(false, Use::Unused, Use::Value, Use::Unused),
        3 => row(false, Use::Unused, Use::WordBelow, Use::Unused),
        4..=9 => row(false, Use::Unused, Use::WordBelow, Use::WordBelow),
        32 => row(true, Use::Unused, Use::Unused, Use::Unused),
        33 => row(true, Use::Unused, Use::Unused, Use::Unused),
        34 => row(true, Use::Positive, Use::ControlAny, Use::Unused),
        35 => row(true, Use::Unused, Use::ControlBelow, Use::ControlBelow),
        36 => row(true, Use::Unused, Use::ControlBelow, Use::WordBelow),
        37 => row(true, Use::Unused, Use::ControlBelow, Use::WordBelow),
        38 => row(true, Use::Unused, Use::ControlBelow, Use::ControlBelow),
        39 => row(true, Use::Unused, Use::ControlBelow, Use::ControlBelow),
        40 => row(false, Use::Unused, Use::ControlBelow, Use::WordAny),
        41 => row(false, Use::Unused, Use::ControlBelow, Use::WordBelow),
        42 => row(false, Use::Value, Use::ControlBelow, Use::WordAny),
        43 => row(false, Use::Unused, Use::WordAny, Use::Unused),
        44 => row(false, Use::Unused, Use::ArrayBelow, Use::WordBelow),
        45 => row(false, Use::Unused, Use::ControlAny, Use::WordAny),
        _ => row(false, Use::Unknown, Use::Unknown, Use::Unknown),
    }
}

pub fn is_control(kind: u8) -> bool
    ensures { result ≡ control kind }
{
    cell_row(kind).control
}

// Whether a cell of this kind is one of an array's two.
pub fn of_array(kind: u8) -> bool
    ensures { result ≡ of_array kind }
{
    (kind == 42) | (kind == 43)
}

// Whether a cell of this kind is a merge, a parallel's or a call's.
pub fn is_merge(kind: u8) -> bool
    ensures { result ≡ merges kind }
{
    (kind == 38) | (kind == 39)
}

// Whether a cell of this kind is a word wire that any cell may name.
pub fn is_word(kind: u8) -> bool
    ensures { result ≡ not (control kind || of_array kind) }
{
    !(is_control(kind) | of_array(kind))
}

// Whether a field of this use is the number of a cell.
pub fn names(u: Use) -> bool
    ensures { result ≡ names u }
{
    match u {
        Use::Unknown | Use::Unused | Use::Value | Use::Positive => false,
        Use::ControlBelow | Use::ControlAny | Use::WordBelow | Use::WordAny | Use::ArrayBelow =>
            true,
    }
}
