// The calls for other languages, in one archive: the answer is 48 bytes in a lent buffer (crate reply). Those on bytes are in `calls`; here are those on
// netlists that a caller holds as a slice of cell structs. Every function on structs is thin: it takes cells out of the slice, or puts them in, and calls
// covered functions on a cell by value.
#![tactic(auto)]

ghost use Rattle.std.specs.Prelude.{◌≡◌, ◌+◌, ◌*◌, ◌≤◌, length, Err};
ghost use Rattle.std.proofs.lemmas.List.Edits.{sets};
ghost use Rattle.model.specs.CellSlices.{behind, check_cells_call, write_cells_call, read_cells_call};
ghost use Rattle.model.specs.NetlistFile.{cell_limit, cells_at, in_file, blocks_for};
ghost use Rattle.reply.specs.Replies.{checked_reply, written_reply, replied, room_for, if_room};
ghost use Rattle.netlist.specs.declared.cells.Layout.TheVariants.{InFile};
ghost use Rattle.netlist.specs.Offsets.{Room};
ghost use Rattle.exports.specs.Writes.{numbered};
ghost use Rattle.exports.specs.Looks.{Looked};

pub mod calls; // the calls on bytes
pub mod functional_calls; // those for functional circuits
mod checking; // what the check tells
pub mod moves; // one cell moved, and cells of six bytes each
mod reading; // what reading tells
mod runs; // the calls that take a state
mod writing; // what writing tells

use model::{Cell, Refusal};
use netlist::cells::Layout;
use netlist::rules::Scan;
use reply::Reply;

// What is found of a netlist's cells, one after another; of more than a netlist may have none is looked at.
// A lent slice of cell structs is a form that is asked for, so this stands beside netlist::rules::check_cells, which has bytes.
fn scanned(cells: &[Cell], finish: u16) -> Scan
    ensures { Looked cells.now finish (length cells.now) result }
{
    let n = cells.len();
    let mut scan = netlist::rules::begin(n, usize::from(finish));
    for (k, c) in cells[..checking::looked(n)].iter().enumerate() {
        let i = netlist::rules::input(n, k, c.a);
        let j = netlist::rules::input(n, k, c.b);
        scan = netlist::rules::step(scan, k, *c, cells[i].kind, cells[j].kind);
    }
    scan
}

// Refusals 11 and 12 of a netlist.
pub fn hub_check_cells(cells: &[Cell], finish: u16, reply: &mut [u8]) -> bool
    ensures done { result ≡ room_for reply.old }
    ensures reply { reply.new ≡ if_room reply.old (replied (checked_reply (check_cells_call cells.now finish)) reply.old) reply.old }
{
    if reply.len() < reply::LENGTH {
        return false;
    }
    let answer = checking::checked(scanned(cells, finish));
    reply::put(reply, Reply::from(answer));
    true
}

// Puts the cells in as their file, whose blocks are numbered from first on: the form of netlist::blocks::put_file for cell structs.
fn put_cells(cells: &[Cell], first: u16, finish: u16, file: &mut [u8])
    requires { (length cells.now ≤ cell_limit) × (512 * blocks_for (length cells.now) ≤ length file.old) × (first ≤ 65280) }
    ensures { file.new ≡ sets file.old 0 (numbered first cells.now finish) }
{
    let n = cells.len();
    let mut sum = 0u16;
    for (k, c) in cells.iter().enumerate() {
        sum = netlist::blocks::put_next(file, k, n, first, finish, *c, sum);
    }
}

// Writes a netlist of this pulse length as a file: refusals 27, 11, 12, 14.
pub fn hub_write_cells(
    pulse: u8,
    cells: &[Cell],
    finish: u16,
    file: &mut [u8],
    reply: &mut [u8],
) -> bool
    ensures done { result ≡ room_for reply.old }
    ensures file { file.new ≡ if_room reply.old (write_cells_call pulse cells.now finish file.old).lent file.old }
    ensures reply { reply.new ≡ if_room reply.old (replied (written_reply (write_cells_call pulse cells.now finish file.old).answer) reply.old) reply.old }
{
    if reply.len() < reply::LENGTH {
        return false;
    }
    let scan = scanned(cells, finish);
    let answer = writing::told(pulse, scan, finish, file.len());
    reply::put(reply, Reply::from(answer));
    if answer.is_ok() {
        let first = netlist::blocks::first_number(u16::from(pulse));
        put_cells(cells, first, finish, file);
    }
    true
}

// Moves the inputs of the cells k places on. A lent slice of cell structs is a form that is asked for, so this stands beside moves::renumber_bytes.
fn renumber(cells: &mut [Cell], k: u16)
    ensures { cells.new ≡ behind k cells.old }
{
    for c in cells.iter_mut() {
        *c = moves::moved(*c, k);
    }
}

// Puts the file's first n cells in from number `at` on, and moves their inputs as many places on.
fn place_cells(cells: &mut [Cell], at: usize, n: usize, file: &[u8])
    requires { (at + n ≤ length cells.old) × Room InFile file.now n }
    ensures { cells.new ≡ sets cells.old at (behind at (cells_at in_file file.now 0 n)) }
{
    let places = &mut cells[at..at + n];
    for (j, c) in places.iter_mut().enumerate() {
        *c = netlist::cells::cell_at(file, Layout::InFile, j);
    }
    renumber(places, (at % 65536) as u16);
}

// Reads a netlist file behind the first `at` cells: refusals 9 to 12, 14.
pub fn hub_read_cells(file: &[u8], at: usize, cells: &mut [Cell], reply: &mut [u8]) -> bool
    ensures done { result ≡ room_for reply.old }
    ensures cells { cells.new ≡ if_room reply.old (read_cells_call file.now at cells.old).lent cells.old }
    ensures reply { reply.new ≡ if_room reply.old (replied (written_reply (read_cells_call file.now at cells.old).answer) reply.old) reply.old }
{
    if reply.len() < reply::LENGTH {
        return false;
    }
    let answer = reading::told(file, at, cells.len());
    reply::put(reply, Reply::from(answer));
    if let Ok(w) = answer {
        place_cells(cells, at, w.count, file);
    }
    true
}
