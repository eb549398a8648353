// Which registers each word follows, directly or through other words: a set of memories (0 to 15) and arrays (16 to 19) for each cell.
// The loops are those of gates; a common one would take the table, the test and its law as parameters, and say no more.
ghost use Rattle.std.specs.Prelude.{true, ◌≡◌, ℕ, ◌^◌, ◌<◌, ◌≤◌, length, get_or};
ghost use Rattle.model.specs.Circuit.{shape, k_memory};
ghost use Rattle.laws.specs.State.Passes.{shape_at};
ghost use Rattle.engine_laws.specs.Tables.{Nets, follows_test, Followed};

use crate::cells::Circuit;

// The set of one register.
pub fn only(i: u32) -> u32
    requires { i < 32 }
    ensures { result ≡ 2 ^ i }
{
    1u32 << i
}

// Whether a cell of this kind follows the registers `own`, where its inputs follow x and y; the others are the sets of its own and its array's number.
// Kinds are those of follows_test.
#[tactic(auto, unfolding(model::specs::Circuit::shape, model::specs::Circuit::cell_table, engine_laws::specs::Tables::follows_test))]
fn follows(kind: u8, own: u32, x: u32, y: u32, memory: u32, array: u32) -> bool
    ensures { result ≡ true → follows_test (shape kind) own x y memory array ≡ true }
{
    match kind {
        3 => own == x,
        4..=9 => own == x | y,
        1 | 32..=39 | 41..=43 => own == 0,
        40 => own == memory,
        44 => own == y | array,
        _ => false,
    }
}

impl Circuit<'_> {
    // Fills the sets; `check_followed` tells whether they are right.
    pub fn find_followed(&self, sets: &mut [u32], rank: &[u8])
        requires { (1024 ≤ length sets.old) × (1024 ≤ length self.now.kind.now) × (1024 ≤ length self.now.delay.now) × (1024 ≤ length self.now.a.now) × (1024 ≤ length self.now.b.now) × (1024 ≤ length rank.now) }
        ensures { length sets.new ≡ length sets.old }
    {
        for k in 0..self.n {
            let (i, j) = self.inputs(k);
            sets[k] = match self.kind[k] {
                3 => sets[i],
                4..=9 => sets[i] | sets[j],
                40 => only(u32::from(rank[k] % 32)),
                44 => sets[j] | only(16 + u32::from(self.delay[i] % 4)),
                _ => 0,
            };
        }
    }

    // Whether the sets are right.
    pub fn check_followed(&self, sets: &[u32], rank: &[u8]) -> bool
        requires { (1024 ≤ length sets.now) × (1024 ≤ length self.now.kind.now) × (1024 ≤ length self.now.delay.now) × (1024 ≤ length self.now.a.now) × (1024 ≤ length self.now.b.now) × (1024 ≤ length rank.now) }
        ensures { result ≡ true → Nets self.now.kind.now self.now.delay.now self.now.a.now self.now.b.now self.now.n (λ net. ((k : ℕ) → k < self.now.n → shape_at net k ≡ k_memory → get_or rank.now k 0 < 32) → Followed (λ k. get_or sets.now k 0) (λ k. get_or rank.now k 0) net) }
    {
        for k in 0..self.n {
            let (i, j) = self.inputs(k);
            let memory = only(u32::from(rank[k] % 32));
            let array = only(16 + u32::from(self.delay[i] % 4));
            let passes = follows(self.kind[k], sets[k], sets[i], sets[j], memory, array);
            if !passes {
                return false;
            }
        }
        true
    }
}
