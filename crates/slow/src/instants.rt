// Instants of a slow run, cell after cell.
ghost use Rattle.std.specs.Prelude.{◌≡◌, ℕ, ◌+◌, ◌*◌, ◌<◌, ◌≤◌, length, take};
ghost use Rattle.model.specs.Circuit.{cell_at, level, memories};
ghost use Rattle.model.specs.NetlistFile.{cell_from};
ghost use Rattle.model.specs.Calls.{word_at};
ghost use Rattle.model.specs.Gates.{end_at, slow_size};
ghost use Rattle.slow.specs.Ring.{cells_of, word_in, values_by, Sees, Prepared, WorksFor, KeptBy};

use crate::net::Net;
use crate::{gates, ring};
use model::Cell;
use model::sizes::{ELEMENTS, START_WORDS, VARIABLES};
use netlist::cells::Layout;

// What stands beside a cell's value: an array's elements, what a merge and a read hold.
fn prepare(net: &Net<'_>, c: Cell, k: usize, work: &mut [u8], t: u32)
    requires { (k < net.now.n) × Sees net.now.cells.now net.now.n c × (c.kind ≡ 42 → (k + 1 < net.now.n) × (c.delay < 4) × ((cell_from net.now.cells.now (6 * (k + 1))).a < net.now.n)) × (slow_size net.now.n ≤ length work.old) }
    ensures { Prepared net.now.cells.now net.now.n k c t work.old work.new }
{
    let kind = c.kind;
    if kind == 42 {
        gates::take_in(net, c, k, work, t);
        return;
    }
    if kind == 44 {
        gates::read_in(net, c, k, work, t);
        return;
    }
    if netlist::kinds::is_merge(kind) {
        gates::hold(net, c, k, work, t);
    }
}

// Evaluates cell k at instant t; memory is how many memories stand below it. Answers how many stand below the next.
fn evaluate(net: &Net<'_>, memory: usize, work: &mut [u8], k: usize, t: u32) -> usize
    requires { WorksFor net.now work.old × KeptBy net.now t k work.old × (k < net.now.n) × (memory ≡ memories (take k (cells_of net.now))) }
    ensures memory { result ≡ memories (take (k + 1) (cells_of net.now)) }
    ensures kept { KeptBy net.now t (k + 1) work.new }
{
    let c = netlist::cells::cell_at(net.cells, Layout::InList, k);
    prepare(net, c, k, work, t);
    let first = word::get16(net.words, 2 * memory);
    let v = gates::next_word(net, first, c, work, k, t);
    ring::put_word(work, k, t, v);
    memory + usize::from(c.kind == 40)
}

// All cells at instant t. The number k is that of a ring, too, and in no list of cells alone. The net is copied, so that the compiler knows that writes in
// work leave it as it is, and reads its fields once.
fn instant(net: &Net<'_>, work: &mut [u8], t: u32)
    requires { WorksFor net.now work.old × KeptBy net.now t 0 work.old }
    ensures { KeptBy net.now t net.now.n work.new }
{
    let net = *net;
    let mut memory: usize = 0;
    for k in 0..net.n {
        memory = evaluate(&net, memory, work, k, t);
    }
}

// The start words of the elements. Crate simulator's go into a state: what the two share is the one line.
fn put_elements(net: &Net<'_>, work: &mut [u8])
    requires { (544 ≤ length net.now.words.now) × (slow_size net.now.n ≤ length work.old) }
    ensures { (e : ℕ) → e < 256 → word_in work.new net.now.n e ≡ word_at net.now.words.now (16 + e) }
{
    let at = ring::slot(net.n, 0);
    word::copy(
        &mut work[at..at + ELEMENTS],
        &net.words[VARIABLES..START_WORDS],
    );
}

// Instants until the finish is high or the budget is used; answers the last one.
pub fn run(net: &Net<'_>, budget: u32, work: &mut [u8]) -> u32
    requires { WorksFor net.now work.old × (net.now.finish < net.now.n) × (budget ≤ 1000000) }
    ensures instant { result ≡ end_at (level (values_by net.now) net.now.finish) 0 budget }
    ensures kept { KeptBy net.now result net.now.n work.new }
{
    put_elements(net, work);
    instant(net, work, 0);
    for t in 0..budget {
        if ring::word_at(work, net.finish, t) == 1 {
            return t;
        }
        instant(net, work, t + 1);
    }
    budget
}
