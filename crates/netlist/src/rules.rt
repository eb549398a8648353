// Refusal 12: the rules that the cells of a netlist keep. One step looks at one cell, whether it stands in a list, in a file or as a struct.
// Each contract is an equation with model/NetlistFile, or says what is found of the netlist's first cells (specs/Scans).
ghost use Rattle.std.specs.Prelude.{◌≡◌, ℕ, ◌+◌, ◌-◌, ◌^◌, ◌<◌, ◌≤◌, true, ◌&&◌, List, length, get_or, ◌==◌, nat_lt};
ghost use Rattle.model.specs.declared.Cell.{Cell};
ghost use Rattle.model.specs.Word.{pick};
ghost use Rattle.model.specs.Circuit.{cell_at, names};
ghost use Rattle.model.specs.NetlistFile.{cell_limit, cells_at, kept, stands, keeps, placed, array_placed, net_check, carries, last_check};
ghost use Rattle.netlist.specs.Offsets.{offset, Room};
ghost use Rattle.netlist.specs.Scans.{Stands, Scanned};

use crate::cells::{Cells, Layout};
use crate::kinds;
use model::kinds::Use;
use model::{Cell, Checked, refuse};

// The cells of the four arrays.
const ARRAY_CELLS: usize = 8;

// Those that carry the last words of a functional circuit.
const LAST_CELLS: usize = 16;

// A netlist of n cells, and what is found of its first ones: how many of them keep the rules, how many are memories, where the
// arrays' cells begin, and whether the finish is among them and is a control wire.
#[derive(Clone, Copy)]
pub struct Scan {
    pub n: usize,
    pub finish: usize,
    pub kept: usize,
    pub memories: usize,
    pub arrays: usize,
    pub control: bool,
}

// The kind of cell k.
// A list and its layout stay parameters here and below, as cells::cell_at takes them: cells::Cells walks, and here any cell is looked at.
fn kind_at(s: &[u8], layout: Layout, k: usize) -> u8
    requires { (k < cell_limit) × (offset layout k + 6 ≤ length s.now) }
    ensures { result ≡ get_or s.now (offset layout k) 0 }
{
    s[crate::cells::offset(layout, k)]
}

// Whether cell k may be c: cells 0, 1 and 2 are given.
fn is_placed(k: usize, c: Cell) -> bool
    ensures { result ≡ placed k c }
{
    match k {
        0 => c.kind == 32,
        1 => c.kind == 33,
        2 => (c.kind == 1) & (c.a == 0),
        _ => true,
    }
}

// Whether cell k may have that kind: kinds 32 and 33 stand nowhere else.
fn stands(kind: u8, k: usize) -> bool
    ensures { result ≡ stands kind k }
{
    match kind {
        32 => k == 0,
        33 => k == 1,
        _ => true,
    }
}

// Whether cell k may be c, where the arrays' cells begin at m: a 42 and a 43 for each array, and nowhere else.
fn arrays_placed(m: usize, k: usize, c: Cell) -> bool
    ensures { result ≡ array_placed m k c }
{
    match k.checked_sub(m) {
        Some(j) if j < ARRAY_CELLS => if j % 2 == 0 {
            (c.kind == 42) & (usize::from(c.delay) == j / 2)
        } else {
            c.kind == 43
        },
        _ => !kinds::of_array(c.kind),
    }
}

// Whether v, in cell k of n, is what its use asks for; `kind` is that of cell v, if v names a cell; no other use looks at it.
fn keeps_use(u: Use, n: usize, k: usize, v: usize, kind: u8) -> bool
    requires { k < n }
    ensures { (net : List Cell) → length net ≡ n → (names u ≡ true → v < n → kind ≡ (cell_at net v).kind) → result ≡ kept u net k v }
{
    match u {
        Use::Unknown => false,
        Use::Unused => v == 0,
        Use::Value => true,
        Use::Positive => (1 <= v) & (v <= 255),
        Use::ControlBelow => (v < k) & kinds::is_control(kind),
        Use::ControlAny => (v < n) & kinds::is_control(kind),
        Use::WordBelow => (v < k) & kinds::is_word(kind),
        Use::WordAny => (v < n) & kinds::is_word(kind),
        Use::ArrayBelow => (v < k) & (kind == 42),
    }
}

// Whether cell k of n, which is c, keeps the rules of its kind; a and b are the kinds of the cells that its inputs name.
fn keeps_rule(n: usize, k: usize, c: Cell, a: u8, b: u8) -> bool
    requires { k < n }
    ensures { (net : List Cell) → length net ≡ n → Stands net k c a b → result ≡ keeps net k c }
{
    let row = kinds::cell_row(c.kind);
    let right_delay = keeps_use(row.delay, n, k, c.delay as usize, 0);
    let right_a = keeps_use(row.a, n, k, c.a as usize, a);
    let right_b = keeps_use(row.b, n, k, c.b as usize, b);
    stands(c.kind, k) & (right_delay & (right_a & right_b))
}

// One cell more, where all before it keep the rules and it does, too.
fn with_next(kept: usize, k: usize, right: bool) -> usize
    requires { k + 1 < 2 ^ 64 }
    ensures { result ≡ pick (kept == k && right) (k + 1) kept }
{
    if (kept == k) & right { k + 1 } else { kept }
}

// Where the arrays' cells begin: behind the sixteenth memory, or, while there are fewer, behind cell k.
fn past_memories(memories: usize, k: usize, before: usize) -> usize
    requires { k + 1 < 2 ^ 64 }
    ensures { result ≡ pick (nat_lt memories 16) (k + 1) before }
{
    if memories < 16 { k + 1 } else { before }
}

pub fn begin(n: usize, finish: usize) -> Scan
    ensures { (net : List Cell) → length net ≡ n → Scanned net finish 0 result }
{
    Scan {
        n,
        finish,
        kept: 0,
        memories: 0,
        arrays: 0,
        control: false,
    }
}

// The cell to look at for input j of cell k: cell j, or cell k itself past the last, whose kind no rule then asks for (specs/Scans).
pub fn input(n: usize, k: usize, j: u16) -> usize
    ensures { result ≡ pick (nat_lt j n) j k }
{
    let i = j as usize;
    if i < n { i } else { k }
}

// The scan with cell k, which is c; a and b are the kinds of the cells that its inputs name.
pub fn step(s: Scan, k: usize, c: Cell, a: u8, b: u8) -> Scan
    requires { (k < s.n) × (s.memories ≤ k) }
    ensures { (net : List Cell) (finish : ℕ) → Stands net k c a b → Scanned net finish k s → Scanned net finish (k + 1) result }
{
    let n = s.n;
    let keeps = keeps_rule(n, k, c, a, b);
    let arrays = past_memories(s.memories, k, s.arrays);
    let right = is_placed(k, c) & (arrays_placed(arrays, k, c) & keeps);
    let kept = with_next(s.kept, k, right);
    let memory = usize::from(c.kind == 40);
    let found = (s.finish == k) & kinds::is_control(c.kind);
    Scan {
        n,
        finish: s.finish,
        kept,
        memories: s.memories + memory,
        arrays,
        control: s.control | found,
    }
}

// Whether the end of n cells cuts the arrays' cells off, which begin at m.
fn cut_off(n: usize, m: usize) -> bool
    ensures { result ≡ nat_lt n (m + 8) }
{
    (n < ARRAY_CELLS) || (n - ARRAY_CELLS < m)
}

// Refusal 12, when every cell is looked at.
pub fn told(s: Scan) -> Checked
    ensures { (net : List Cell) (finish : ℕ) → Scanned net finish (length net) s → result ≡ net_check net finish }
{
    if s.kept < s.n {
        return refuse(12, s.kept);
    }
    if (s.memories != 16) | cut_off(s.n, s.arrays) {
        return refuse(12, s.n);
    }
    if s.control {
        return Ok(());
    }
    refuse(12, s.finish)
}

// Refusal 12, of n cells and their finish.
pub fn check_cells(s: &[u8], layout: Layout, n: usize, finish: usize) -> Checked
    requires { Room layout s.now n }
    ensures { result ≡ net_check (cells_at (offset layout) s.now 0 n) finish }
{
    let mut scan = begin(n, finish);
    let cells = Cells {
        bytes: s,
        layout,
        next: 0,
        end: n,
    };
    for (k, c) in cells.enumerate() {
        let a = kind_at(s, layout, input(n, k, c.a));
        let b = kind_at(s, layout, input(n, k, c.b));
        scan = step(scan, k, c, a, b);
    }
    told(scan)
}

// For a functional run -------------------------------------------------------------------------------------------------------------------

// Whether c carries a last word.
fn carries(c: Cell) -> bool
    ensures { result ≡ carries c }
{
    (c.kind == 7) & (c.b == 2)
}

// The first of the last sixteen of n cells.
pub fn first_last(n: usize) -> usize
    ensures { result ≡ n - 16 }
{
    n.saturating_sub(LAST_CELLS)
}

// Refusal 12 of the last sixteen of n cells, which carry the last words.
pub fn check_last(s: &[u8], layout: Layout, n: usize) -> Checked
    requires { Room layout s.now n }
    ensures { result ≡ last_check (cells_at (offset layout) s.now 0 n) }
{
    let first = first_last(n);
    let last = Cells {
        bytes: s,
        layout,
        next: first,
        end: n,
    };
    for (k, c) in last.enumerate() {
        if !carries(c) {
            return refuse(12, first + k);
        }
    }
    Ok(())
}
