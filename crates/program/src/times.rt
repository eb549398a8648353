// Expression times and least delays: refusal 7. `operators` is a list of operator times: entry k is that of kind k.
// Each contract is an equation with model/Program or model/ProgramChecks; what the two arrays hold is said in specs/Shape.
ghost use Rattle.std.specs.Prelude.{◌≡◌, ℕ, ◌+◌, ◌≤◌, ◌<◌, max, length, get_or};
ghost use Rattle.model.specs.Refusals.{first_fault};
ghost use Rattle.model.specs.Program.{node_count, expr_at, stmt_at, time, time_in, gap, least};
ghost use Rattle.model.specs.ProgramChecks.{delay_fault};
ghost use Rattle.program.specs.Shape.{Shaped};

use crate::nodes::{self, Tree};
use model::sizes::NODE;
use model::{Checked, refuse};

// A program with the operator times that it is measured by, and the two arrays, as far as they are filled.
#[derive(Clone, Copy)]
pub struct Measured<'a> {
    pub operators: &'a [u8],
    pub tree: Tree<'a>,
    pub times: &'a [u16; 200],
    ghost short: { length tree.program.now ≤ 800 },
}

// The operator time of a kind, 0 where the list has none, as definition `time_in` tells it; times are bytes.
fn operator_time(operators: &[u8], kind: u8) -> u16
    ensures time { result ≡ time_in operators.now kind }
    ensures low { (k : ℕ) → time_in operators.now k ≤ 255 }
{
    u16::from(operators.get(kind as usize).copied().unwrap_or(0))
}

// The least delay of a loop and of a call, for this pulse length.
fn gap(pulse: u8) -> u16
    ensures { result ≡ gap pulse }
{
    if pulse == 1 { 1 } else { pulse as u16 + 1 }
}

impl Measured<'_> {
    // The expression time of node i, where the array has it. A constant stands for a node that is not there, as definition `expr_at` has it.
    fn known_time(&self, i: usize) -> u16
        requires { i < node_count self.now.tree.program.now → get_or self.now.times.now i 0 ≡ time (time_in self.now.operators.now) (expr_at self.now.tree.program.now i) }
        ensures { result ≡ time (time_in self.now.operators.now) (expr_at self.now.tree.program.now i) }
    {
        if i < self.tree.program.len() / NODE {
            self.times[i]
        } else {
            operator_time(self.operators, 1)
        }
    }

    // The expression time of node i, where the arrays have those after it.
    pub fn time_at(&self, i: usize) -> u16
        requires { (i < node_count self.now.tree.program.now) × ((j : ℕ) → i + 1 ≤ j → j < node_count self.now.tree.program.now → Shaped (time_in self.now.operators.now) self.now.tree.program.now self.now.times.now self.now.tree.ends.now j) }
        ensures { result ≡ time (time_in self.now.operators.now) (expr_at self.now.tree.program.now i) }
    {
        let node = nodes::read_node(self.tree.program, i);
        let kind = node.kind;
        if 16 <= kind {
            return operator_time(self.operators, 1);
        }
        let operator = operator_time(self.operators, kind);
        if kind == 1 {
            return operator;
        }
        if kind == 2 {
            return operator;
        }
        let first = self.known_time(i + 1);
        if kind == 3 {
            return operator + first;
        }
        if kind == 10 {
            return operator + first;
        }
        let second = self.known_time(self.tree.next(i + 1));
        operator + first.max(second)
    }

    // The least delay that node i may have.
    fn least_at(&self, pulse: u8, i: usize) -> u16
        requires { (i < node_count self.now.tree.program.now) × ((j : ℕ) → j < node_count self.now.tree.program.now → Shaped (time_in self.now.operators.now) self.now.tree.program.now self.now.times.now self.now.tree.ends.now j) }
        ensures { result ≡ least (time_in self.now.operators.now) pulse (stmt_at self.now.tree.program.now i) }
    {
        let node = nodes::read_node(self.tree.program, i);
        let kind = node.kind;
        if kind <= 16 {
            return 0;
        }
        if kind == 17 {
            return 1;
        }
        if kind == 19 {
            return 0;
        }
        if kind == 20 {
            return 0;
        }
        if (kind == 25) | (kind == 27) {
            return gap(pulse);
        }
        if kind == 26 {
            return 0;
        }
        let time = self.known_time(i + 1);
        if kind == 21 {
            return time;
        }
        if kind == 24 {
            let second = self.known_time(self.tree.next(i + 1));
            return u16::max(1, time.max(second));
        }
        if kind == 18 {
            return u16::max(1, time);
        }
        gap(pulse).max(time)
    }

    // Refusal 7: the first node whose delay is too small.
    pub fn first_slow(&self, pulse: u8) -> Checked
        requires { (j : ℕ) → j < node_count self.now.tree.program.now → Shaped (time_in self.now.operators.now) self.now.tree.program.now self.now.times.now self.now.tree.ends.now j }
        ensures { result ≡ first_fault (delay_fault (time_in self.now.operators.now) pulse self.now.tree.program.now) 0 (node_count self.now.tree.program.now) }
    {
        for (i, bytes) in self.tree.program.chunks_exact(NODE).enumerate() {
            let node = nodes::read_node(bytes, 0);
            if u16::from(node.delay) < self.least_at(pulse, i) {
                return refuse(7, i);
            }
        }
        Ok(())
    }
}
