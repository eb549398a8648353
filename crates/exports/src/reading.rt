// What reading a netlist behind cells that stand already answers.
// Each contract speaks of model/CellSlices.
ghost use Rattle.std.specs.Prelude.{◌≡◌, ◌+◌, List, length, nat_lt};
ghost use Rattle.model.specs.declared.Cell.{Cell};
ghost use Rattle.model.specs.CellSlices.{read_cells_call};

use model::{Refusal, Written, refuse};

// Whether a list has no room for so many cells behind the first `at`.
fn lacks(room: usize, at: usize, count: usize) -> bool
    ensures { result ≡ nat_lt room (at + count) }
{
    match at.checked_add(count) {
        Some(end) => room < end,
        None => true,
    }
}

// Refusals 9 to 12, 14, for a list with so much room.
pub fn told(file: &[u8], at: usize, room: usize) -> Result<Written, Refusal>
    ensures { (lent : List Cell) → length lent ≡ room → result ≡ (read_cells_call file.now at lent).answer }
{
    netlist::check_file(file)?;
    let count = usize::from(word::get16(file, 2));
    let finish = word::get16(file, 4);
    if lacks(room, at, count) {
        return refuse(14, 0);
    }
    Ok(Written { count, finish })
}
