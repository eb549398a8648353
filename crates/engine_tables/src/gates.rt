// Which cells an idle instant clears: control cells, gates, and ors of such words.
ghost use Rattle.std.specs.Prelude.{true, List, ◌≡◌, ℕ, ◌≤◌, eqb, length, get_or};
ghost use Rattle.model.specs.Circuit.{shape};
ghost use Rattle.engine_laws.specs.Tables.{Nets, clears_test, Cleared};

use crate::cells::Circuit;

// Whether a cell of this kind may be marked as `own`, where its inputs are marked so: kinds and flags are those of clears_test.
#[tactic(auto, unfolding(model::specs::Circuit::shape, model::specs::Circuit::cell_table, engine_laws::specs::Tables::clears_test))]
fn clears(kind: u8, own: bool, first: bool, second: bool) -> bool
    ensures { result ≡ true → clears_test (shape kind) kind own first second ≡ true }
{
    match kind {
        1 => !own,
        3 => !(own | first),
        4..=9 => (own & (kind == 7) & first & second) | !(own | first | second),
        32 | 33 => own,
        34 | 36 | 37 | 41 => own & first,
        35 | 38 | 39 => own & first & second,
        40 | 42 => !own & first,
        43 => !own,
        44 => !(own | second),
        _ => false,
    }
}

impl Circuit<'_> {
    // Marks them by 1; `check_cleared` tells whether the marks are right.
    pub fn find_cleared(&self, cleared: &mut [u8])
        requires { (1024 ≤ length cleared.old) × (1024 ≤ length self.now.kind.now) × (1024 ≤ length self.now.a.now) × (1024 ≤ length self.now.b.now) }
        ensures { length cleared.new ≡ length cleared.old }
    {
        for k in 0..self.n {
            let (i, j) = self.inputs(k);
            cleared[k] = match self.kind[k] {
                32..=39 | 41 => 1,
                7 => cleared[i] & cleared[j],
                _ => 0,
            };
        }
    }

    // Whether the marks are right, and no cell is a latch; what is no 1 is no mark.
    pub fn check_cleared(&self, cleared: &[u8]) -> bool
        requires { (1024 ≤ length cleared.now) × (1024 ≤ length self.now.kind.now) × (1024 ≤ length self.now.a.now) × (1024 ≤ length self.now.b.now) }
        ensures { result ≡ true → (delays : List ℕ) → Nets self.now.kind.now delays self.now.a.now self.now.b.now self.now.n (Cleared (λ k. eqb (get_or cleared.now k 0) 1)) }
    {
        for k in 0..self.n {
            let (i, j) = self.inputs(k);
            let passes = clears(
                self.kind[k],
                cleared[k] == 1,
                cleared[i] == 1,
                cleared[j] == 1,
            );
            if !passes {
                return false;
            }
        }
        true
    }
}
