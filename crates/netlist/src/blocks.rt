// Blocks of 512 bytes: refusals 10 and 11, and putting blocks in.
// Each contract is an equation with model/NetlistFile; `sets d i v` is d with v put in at i.
ghost use Rattle.std.specs.Prelude.{◌≡◌, ℕ, ◌+◌, ◌-◌, ◌*◌, ◌^◌, ◌<◌, ◌≤◌, List, [], ◌++◌, length, drop, replicate, ◌==◌};
ghost use Rattle.std.proofs.lemmas.List.Edits.{sets};
ghost use Rattle.model.specs.declared.Cell.{Cell};
ghost use Rattle.model.specs.Word.{pick, bytes16};
ghost use Rattle.model.specs.Circuit.{cell_at};
ghost use Rattle.model.specs.Refusals.{first_fault};
ghost use Rattle.model.specs.NetlistFile.{cell_limit, cells_at, in_list, running_sum, check_for, blocks_for, first_number, file_of, count_of, finish_of, pulse_of, pulse_wrong, block_at, sum_fault, count_wrong, all_zero, header_right, header_fault};
ghost use Rattle.netlist.specs.Offsets.{Room};
ghost use Rattle.netlist.specs.Blocks.{header_bytes, Filled};

use crate::cells::Layout;
use model::sizes::{BLOCK, BLOCK_CELLS, BLOCK_HEADER, CELL, MOST_CELLS};
use model::{Cell, Checked, refuse};

// The first three words of a block.
#[derive(Clone, Copy)]
pub struct BlockHeader {
    pub number: u16,
    pub count: u16,
    pub finish: u16,
}

// Checking -------------------------------------------------------------------------------------------------------------------------------

// The first of m blocks whose check is wrong.
pub fn check_sums(s: &[u8], m: usize) -> Checked
    requires { 512 * m ≤ length s.now }
    ensures { result ≡ first_fault (sum_fault s.now) 0 m }
{
    for (b, block) in s[..BLOCK * m].chunks_exact(BLOCK).enumerate() {
        if word::sum16(block, 0, 256) != 0 {
            return refuse(10, b);
        }
    }
    Ok(())
}

// How many blocks so many cells take.
pub fn blocks_for(count: usize) -> usize
    ensures { result ≡ blocks_for count }
{
    count.div_ceil(BLOCK_CELLS)
}

pub fn count_wrong(m: usize, count: usize, finish: usize) -> bool
    requires { count + 83 < 2 ^ 64 }
    ensures { result ≡ count_wrong m count finish }
{
    !((27 <= count) & ((count <= MOST_CELLS) & ((m == blocks_for(count)) & (finish < count))))
}

// The pulse length that a file tells, by the high byte of block 0's number.
pub fn pulse_of(s: &[u8]) -> u16
    requires { 1 < length s.now }
    ensures { result ≡ pulse_of s.now }
{
    u16::from(s[1]) + 1
}

pub fn pulse_wrong(pulse: u16) -> bool
    ensures { result ≡ pulse_wrong pulse }
{
    (pulse == 0) | (8 < pulse)
}

// The number of block 0 in a file of this pulse length.
pub fn first_number(pulse: u16) -> u16
    requires { pulse ≤ 256 }
    ensures { result ≡ first_number pulse }
{
    256 * pulse.saturating_sub(1)
}

// Whether a block has nothing but zeros from its byte j on, if it goes so far. Crate state asks it of a part of a state: one line each.
fn zero_from(block: &[u8], j: usize) -> bool
    ensures { result ≡ all_zero (drop j block.now) }
{
    block.iter().skip(j).all(|byte| *byte == 0)
}

// Whether a block, which is number b, has the header and the unused bytes of a netlist of so many cells.
fn is_headed(block: &[u8], b: usize, pulse: u16, count: usize, finish: usize) -> bool
    requires { (length block.now ≡ 512) × (84 * b < count) × (count ≤ cell_limit) × (pulse ≤ 256) }
    ensures { result ≡ header_right pulse count finish b block.now }
{
    let first = first_number(pulse) as usize;
    let number = word::get16(block, 0) as usize;
    let its_count = word::get16(block, 2) as usize;
    let its_finish = word::get16(block, 4) as usize;
    let unused = zero_from(block, BLOCK_HEADER + CELL * (count - BLOCK_CELLS * b));
    (number == first + b) & ((its_count == count) & ((its_finish == finish) & unused))
}

// The first of m blocks whose header or unused bytes are wrong, for the pulse length, the count and the finish of block 0.
pub fn check_headers(s: &[u8], m: usize, pulse: u16, count: usize, finish: usize) -> Checked
    requires { (512 * m ≤ length s.now) × (count ≤ cell_limit) × (m ≡ blocks_for count) × (count ≡ count_of s.now) × (finish ≡ finish_of s.now) × (pulse ≡ pulse_of s.now) × (pulse ≤ 256) }
    ensures { result ≡ first_fault (header_fault s.now) 0 m }
{
    for (b, block) in s[..BLOCK * m].chunks_exact(BLOCK).enumerate() {
        if !is_headed(block, b, pulse, count, finish) {
            return refuse(11, b);
        }
    }
    Ok(())
}

// Putting in -----------------------------------------------------------------------------------------------------------------------------

// Puts zeros in from i on, up to end.
pub fn clear(d: &mut [u8], i: usize, end: usize)
    requires { end ≤ length d.old }
    ensures { d.new ≡ sets d.old i (replicate (end - i) 0) }
{
    if i < end {
        d[i..end].fill(0);
    }
}

impl BlockHeader {
    // What a block's running sum begins with.
    pub fn sum(self) -> u16
        ensures { result ≡ running_sum self.number self.count self.finish [] }
    {
        self.number
            .wrapping_add(self.count)
            .wrapping_add(self.finish)
    }

    // What the running sum is before cell j of a block.
    fn sum_before(self, j: usize, sum: u16) -> u16
        ensures { result ≡ pick (j == 0) (running_sum self.number self.count self.finish []) sum }
    {
        if j == 0 { self.sum() } else { sum }
    }

    // Puts the header of the block at i in; the check comes from the running sum alone.
    pub fn put(self, d: &mut [u8], i: usize, sum: u16)
        requires { i + 8 ≤ length d.old }
        ensures { d.new ≡ sets d.old i (header_bytes self ++ bytes16 (check_for sum)) }
    {
        word::put16(d, i, self.number);
        word::put16(d, i + 2, self.count);
        word::put16(d, i + 4, self.finish);
        word::put16(d, i + 6, sum.wrapping_neg());
    }

    // Puts what the block at i has beside its n cells in: zeros after them, and the header.
    fn close(self, d: &mut [u8], i: usize, n: usize, sum: u16)
        requires { (i + 512 ≤ length d.old) × (n ≤ 84) }
        ensures { d.new ≡ sets (sets d.old (i + 8 + 6 * n) (replicate (504 - 6 * n) 0)) i (header_bytes self ++ bytes16 (check_for sum)) }
    {
        clear(d, i + BLOCK_HEADER + CELL * n, i + BLOCK);
        self.put(d, i, sum);
    }
}

// Puts cell k of n, which is c, into their file, whose blocks are numbered from first on, and with the last cell of a block what else the block has; answers
// the running sum. It has seven parameters, since crates that hold their cells otherwise call it cell by cell, with these in variables of their own.
pub fn put_next(d: &mut [u8], k: usize, n: usize, first: u16, finish: u16, c: Cell, sum: u16) -> u16
    requires { (k < n) × (n ≤ cell_limit) × (512 * blocks_for n ≤ length d.old) × (first ≤ 65280) }
    ensures { (net : List Cell) (was : List ℕ) → length net ≡ n → cell_at net k ≡ c → Filled first net finish was k sum d.old → Filled first net finish was (k + 1) result d.new }
{
    let b = k / BLOCK_CELLS;
    let j = k % BLOCK_CELLS;
    let h = BlockHeader {
        number: first + b as u16,
        count: n as u16,
        finish,
    };
    let before = h.sum_before(j, sum);
    let total = crate::cells::put_cell(d, BLOCK * b + BLOCK_HEADER + CELL * j, c, before);
    if (j == 83) | (k + 1 == n) {
        h.close(d, BLOCK * b, j + 1, total);
    }
    total
}

// Puts the file of a list of n cells in. cells::put_cells puts the cells alone in: no block, header or sum is the same there.
pub fn put_file(d: &mut [u8], cells: &[u8], n: usize, pulse: u16, finish: u16)
    requires { (512 * blocks_for n ≤ length d.old) × Room Layout.InList cells.now n × (pulse ≤ 256) }
    ensures { d.new ≡ sets d.old 0 (file_of pulse (cells_at in_list cells.now 0 n) finish) }
{
    let first = first_number(pulse);
    let mut sum = 0;
    for (k, cell) in cells[..CELL * n].chunks_exact(CELL).enumerate() {
        let c = crate::cells::cell_from(cell, 0);
        sum = put_next(d, k, n, first, finish, c, sum);
    }
}
