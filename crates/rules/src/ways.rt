// How a statement ran within a budget, and the runs of which others are made: a wait, a run that begins later, one that an exit ended.
// Contracts are equations with model/Rules, for any words w that the run leaves; specs/Ran says what a run in code stands for.
// Of a run that is still going the words say nothing.
ghost use Rattle.std.specs.Prelude.{List, ℕ, ◌+◌, ◌<◌};
ghost use Rattle.model.specs.Rules.{ended, after, wait, caught};
ghost use Rattle.rules.specs.Ran.{store_of, run_of, time_of, Stands};

// After so many instants it ended, or came to an exit of a loop around it; or it is still going.
#[derive(Clone, Copy)]
pub enum Ran {
    Ended(u32),
    Left(u32),
    Unfinished,
}

impl Ran {
    // d instants, and then the end.
    pub fn pause(d: u32, budget: u32) -> Ran
        ensures { (w : List ℕ) → Stands budget (wait d budget (λ k. ended 0 (store_of w))) result w }
    {
        if d <= budget {
            Ran::Ended(d)
        } else {
            Ran::Unfinished
        }
    }

    // A run that begins d instants later.
    pub fn later(self, d: u32) -> Ran
        requires { d + time_of self < 4294967296 }
        ensures { (w : List ℕ) → Stands (d + time_of self) (after d (run_of self w)) result w }
    {
        match self {
            Ran::Ended(time) => Ran::Ended(d + time),
            Ran::Left(time) => Ran::Left(d + time),
            Ran::Unfinished => Ran::Unfinished,
        }
    }

    // What comes to an exit in the body of a loop ends the loop.
    pub fn caught(self) -> Ran
        ensures { (w : List ℕ) → Stands (time_of self) (caught (run_of self w)) result w }
    {
        match self {
            Ran::Left(time) => Ran::Ended(time),
            _ => self,
        }
    }
}
