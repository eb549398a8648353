// The calls on netlists that a caller holds as cell structs, and renumbering over six bytes for each cell, under their C names, with the same contracts.
ghost use Rattle.std.specs.Prelude.{◌≡◌};
ghost use Rattle.model.specs.CellSlices.{check_cells_call, write_cells_call, read_cells_call, has_cells, renumber_call};
ghost use Rattle.reply.specs.Replies.{checked_reply, written_reply, replied, room_for, if_room};

use model::Cell;

// Refusals 11 and 12 of a netlist.
#[unsafe(no_mangle)]
pub extern "C" fn hub_check_cells(cells: &[Cell], finish: u16, reply: &mut [u8]) -> bool
    ensures done { result ≡ room_for reply.old }
    ensures reply { reply.new ≡ if_room reply.old (replied (checked_reply (check_cells_call cells.now finish)) reply.old) reply.old }
{
    exports::hub_check_cells(cells, finish, reply)
}

// Writes a netlist of this pulse length as a file: refusals 27, 11, 12, 14.
#[unsafe(no_mangle)]
pub extern "C" fn hub_write_cells(
    pulse: u8,
    cells: &[Cell],
    finish: u16,
    file: &mut [u8],
    reply: &mut [u8],
) -> bool
    ensures done { result ≡ room_for reply.old }
    ensures file { file.new ≡ if_room reply.old (write_cells_call pulse cells.now finish file.old).lent file.old }
    ensures reply { reply.new ≡ if_room reply.old (replied (written_reply (write_cells_call pulse cells.now finish file.old).answer) reply.old) reply.old }
{
    exports::hub_write_cells(pulse, cells, finish, file, reply)
}

// Reads a netlist file behind the first `at` cells: refusals 9 to 12, 14.
#[unsafe(no_mangle)]
pub extern "C" fn hub_read_cells(
    file: &[u8],
    at: usize,
    cells: &mut [Cell],
    reply: &mut [u8],
) -> bool
    ensures done { result ≡ room_for reply.old }
    ensures cells { cells.new ≡ if_room reply.old (read_cells_call file.now at cells.old).lent cells.old }
    ensures reply { reply.new ≡ if_room reply.old (replied (written_reply (read_cells_call file.now at cells.old).answer) reply.old) reply.old }
{
    exports::hub_read_cells(file, at, cells, reply)
}

// Renumbering over six bytes for each cell, for callers that hold no structs. It answers whether there are cells up to `end`; where
// there are not, it does nothing.
#[unsafe(no_mangle)]
pub extern "C" fn hub_renumber(cells: &mut [u8], from: usize, end: usize, k: u16) -> bool
    ensures done { result ≡ has_cells end cells.old }
    ensures cells { cells.new ≡ renumber_call k from end cells.old }
{
    exports::moves::hub_renumber(cells, from, end, k)
}
