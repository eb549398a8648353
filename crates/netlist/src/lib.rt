// Netlist files: checked, written from cells of six bytes each, read back to them.
// The calls that check, write and read have no requires, and their contracts are equations with model/NetlistFile and model/Calls.
// Most widening casts are `as`, which a proof computes; each `From` would be one more equation to rewrite by.
#![tactic(auto)]

ghost use Rattle.model.specs.Refusals.{Accepted};
ghost use Rattle.std.specs.Prelude.{◌≡◌, ◌≤◌, Err};
ghost use Rattle.model.specs.NetlistFile.{file_check, cells_at, in_list, cells_of, last_check};
ghost use Rattle.model.specs.Calls.{write_call, read_call};
ghost use Rattle.netlist.specs.Offsets.{Room};
ghost use Rattle.netlist.specs.Blocks.{written_file};

pub mod cells; // cells in bytes
pub mod kinds; // the table of cell kinds
pub mod rules; // refusal 12
pub mod blocks; // refusals 10 and 11, and putting blocks in
pub mod header; // what a file that is accepted tells beside its cells
pub mod moves; // inputs that name cells, with new numbers
pub mod same; // whether a file is that of a list of cells

use cells::Layout;
use model::sizes::{BLOCK, CELL, FILE_MOST, MOST_CELLS};
use model::{Checked, Refusal, Written, refuse};

// Refusals 9 to 12, in their order.
pub fn check_file(file: &[u8]) -> Checked
    ensures { result ≡ file_check file.now }
{
    let size = file.len();
    if (size == 0) | ((FILE_MOST < size) | (0 < size % BLOCK)) {
        return refuse(9, 0);
    }
    let m = size / BLOCK;
    blocks::check_sums(file, m)?;
    let count = word::get16(file, 2) as usize;
    let finish = word::get16(file, 4) as usize;
    let pulse = blocks::pulse_of(file);
    if blocks::count_wrong(m, count, finish) | blocks::pulse_wrong(pulse) {
        return refuse(11, 0);
    }
    blocks::check_headers(file, m, pulse, count, finish)?;
    rules::check_cells(file, Layout::InFile, count, finish)
}

// Refusal 12 of the last sixteen cells of a file that is accepted. Nothing else is looked at, so of another file the answer is free.
pub fn check_last(file: &[u8]) -> Checked
    ensures { file_check file.now ≡ Accepted → result ≡ last_check (cells_of file.now) }
{
    if file.len() < BLOCK {
        return Ok(());
    }
    let n = word::get16(file, 2) as usize;
    if (MOST_CELLS < n) | (file.len() < BLOCK * blocks::blocks_for(n)) {
        return Ok(());
    }
    rules::check_last(file, Layout::InFile, n)
}

// Writes n cells of a list, with their pulse length and finish, as a file: refusal 14. The count stands beside, here and below: there is no heap, so the list
// has room for the most cells that there may be.
pub fn write_file(
    file: &mut [u8],
    cells: &[u8],
    n: usize,
    pulse: u16,
    finish: u16,
) -> Result<Written, Refusal>
    requires { Room Layout.InList cells.now n × (pulse ≤ 256) }
    ensures answer { result ≡ (written_file pulse (cells_at in_list cells.now 0 n) finish file.old).answer }
    ensures lent { file.new ≡ (written_file pulse (cells_at in_list cells.now 0 n) finish file.old).lent }
{
    let count = BLOCK * blocks::blocks_for(n);
    if file.len() < count {
        return refuse(14, 0);
    }
    blocks::put_file(file, cells, n, pulse, finish);
    Ok(Written { count, finish })
}

// Writes a netlist of this pulse length, of six bytes for each cell, as a file: refusals 27, 11, 12, 14.
pub fn write_netlist(
    pulse: u8,
    cells: &[u8],
    finish: u16,
    file: &mut [u8],
) -> Result<Written, Refusal>
    ensures answer { result ≡ (write_call pulse cells.now finish file.old).answer }
    ensures lent { file.new ≡ (write_call pulse cells.now finish file.old).lent }
{
    let length = u16::from(pulse);
    if blocks::pulse_wrong(length) {
        return refuse(27, 0);
    }
    let n = cells.len() / CELL;
    let f = finish as usize;
    if (0 < cells.len() % CELL) | blocks::count_wrong(blocks::blocks_for(n), n, f) {
        return refuse(11, 0);
    }
    rules::check_cells(cells, Layout::InList, n, f)?;
    write_file(file, cells, n, length, finish)
}

// Reads a netlist file into cells of six bytes each: refusals 9 to 12, 14.
pub fn read_netlist(file: &[u8], cells: &mut [u8]) -> Result<Written, Refusal>
    ensures answer { result ≡ (read_call file.now cells.old).answer }
    ensures lent { cells.new ≡ (read_call file.now cells.old).lent }
{
    check_file(file)?;
    let count = word::get16(file, 2) as usize;
    let finish = word::get16(file, 4);
    if cells.len() < CELL * count {
        return refuse(14, 0);
    }
    cells::put_cells(cells, 0, file, Layout::InFile, 0, count);
    Ok(Written { count, finish })
}
