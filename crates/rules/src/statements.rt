// The statements of a program, run by their nodes from lent words, which they leave as the rules say.
// Contracts are equations with model/Rules; specs/Ran says what words, costs and runs in code stand for.
// Each kind of statement has a function that runs it from its children's nodes. Of a run that is still going the words say nothing.
// Its parameters are the statement's own parts, as many as its constructor in model/Program has, and what the run is given: a struct of them would be made
// for one call and taken apart in it. Widening casts are `as`, with which proofs compute; each `From` is one more equation to rewrite by.
ghost use Rattle.std.specs.Prelude.{◌≤◌, ◌<◌};
ghost use Rattle.model.specs.Program.{tick, assign, assign_elem, seq, par, ite, while, repeat, loop};
ghost use Rattle.rules.specs.Ran.{expr_of, stmt_of, body_of, Sound, Runnable, Runs};

use crate::ways::Ran;
use crate::words;
use model::sizes::NODE;
use program::nodes::{self, Tree};

// What a kind of circuit adds to the delays: an assignment takes `write` more, and a loop's words are latched in `latch` instants, before each test of
// a while and before each turn of a repeat.
#[derive(Clone, Copy)]
pub struct Costs {
    pub write: u8,
    pub latch: u8,
}

// What statements are run by: the program, where its nodes' subtrees end, how many procedures may be called, and the costs.
#[derive(Clone, Copy)]
pub struct Interpreter<'a> {
    pub tree: Tree<'a>,
    pub procedures: usize,
    pub costs: Costs,
}

impl Interpreter<'_> {
    // The variable x gets the expression at node e.
    fn assign_at(&self, words: &mut [u16; 272], e: usize, x: u16, d: u32, budget: u32) -> Ran
        requires { Sound self.now (assign d x (expr_of self.now e)) × (d < 256) }
        ensures { Runs self.now budget (assign d x (expr_of self.now e)) words.old result words.new }
    {
        let value = self.eval_at(e, words);
        words[x as usize] = value;
        Ran::pause(d + self.costs.write as u32, budget)
    }

    // The element of an array, whose index is the expression at node e, gets the expression at node f.
    fn assign_elem_at(
        &self,
        words: &mut [u16; 272],
        e: usize,
        f: usize,
        array: u16,
        d: u32,
        budget: u32,
    ) -> Ran
        requires { Sound self.now (assign_elem d array (expr_of self.now e) (expr_of self.now f)) × (d < 256) }
        ensures { Runs self.now budget (assign_elem d array (expr_of self.now e) (expr_of self.now f)) words.old result words.new }
    {
        let index = self.eval_at(e, words);
        let value = self.eval_at(f, words);
        words[words::element_word(array, index)] = value;
        Ran::pause(d + self.costs.write as u32, budget)
    }

    // The statement at node p, and then that at node q.
    #[cycle(statement)]
    fn seq_at(&self, words: &mut [u16; 272], p: usize, q: usize, budget: u32) -> Ran
        requires { Runnable self.now (seq (stmt_of self.now p) (stmt_of self.now q)) × (p ≤ q) }
        ensures { Runs self.now budget (seq (stmt_of self.now p) (stmt_of self.now q)) words.old result words.new }
    {
        let first = self.run_at(words, p, budget);
        let Ran::Ended(time) = first else {
            return first;
        };
        self.run_at(words, q, budget - time).later(time)
    }

    // The statements at nodes p and q, side by side. No side writes what the other touches (refusal 8): so the second may start from the first's last words,
    // and what each wrote is left.
    #[cycle(statement)]
    fn par_at(&self, words: &mut [u16; 272], p: usize, q: usize, budget: u32) -> Ran
        requires { Runnable self.now (par (stmt_of self.now p) (stmt_of self.now q)) × (p ≤ q) }
        ensures { Runs self.now budget (par (stmt_of self.now p) (stmt_of self.now q)) words.old result words.new }
    {
        let Ran::Ended(first) = self.run_at(words, p, budget) else {
            return Ran::Unfinished;
        };
        let Ran::Ended(second) = self.run_at(words, q, budget) else {
            return Ran::Unfinished;
        };
        Ran::Ended(first.max(second))
    }

    // If the expression at node e is true, the statement at node p, else that at node q.
    #[cycle(statement)]
    fn if_at(
        &self,
        words: &mut [u16; 272],
        e: usize,
        p: usize,
        q: usize,
        d: u32,
        budget: u32,
    ) -> Ran
        requires { Runnable self.now (ite d (expr_of self.now e) (stmt_of self.now p) (stmt_of self.now q)) × (p ≤ q) }
        ensures { Runs self.now budget (ite d (expr_of self.now e) (stmt_of self.now p) (stmt_of self.now q)) words.old result words.new }
    {
        if budget < d {
            return Ran::Unfinished;
        }
        let value = self.eval_at(e, words);
        let branch = if value == 0 { q } else { p };
        self.run_at(words, branch, budget - d).later(d)
    }

    // While the expression at node e is true, the statement at node p.
    #[cycle(statement)]
    fn while_at(&self, words: &mut [u16; 272], e: usize, p: usize, d: u32, budget: u32) -> Ran
        requires { Runnable self.now (while d (expr_of self.now e) (stmt_of self.now p)) × (d < 256) }
        ensures { Runs self.now budget (while d (expr_of self.now e) (stmt_of self.now p)) words.old result words.new }
    {
        let test = d + self.costs.latch as u32;
        let mut left = budget;
        // No range counts the turns: each tells how long it takes.
        while test <= left {
            let rest = left - test;
            if self.eval_at(e, words) == 0 {
                return Ran::Ended(budget - rest);
            }
            let turn = self.run_at(words, p, rest);
            let Ran::Ended(time) = turn else {
                return turn.later(budget - rest);
            };
            left = rest - time;
        }
        Ran::Unfinished
    }

    // The statement at node p, until the expression at node e is true.
    #[cycle(statement)]
    fn repeat_at(&self, words: &mut [u16; 272], e: usize, p: usize, d: u32, budget: u32) -> Ran
        requires { Runnable self.now (repeat d (expr_of self.now e) (stmt_of self.now p)) }
        ensures { Runs self.now budget (repeat d (expr_of self.now e) (stmt_of self.now p)) words.old result words.new }
    {
        let latch = self.costs.latch as u32;
        let mut left = budget;
        // As above.
        while latch <= left {
            let awake = left - latch;
            let turn = self.run_at(words, p, awake);
            let Ran::Ended(time) = turn else {
                return turn.later(budget - awake);
            };
            let rest = awake - time;
            if rest < d {
                return Ran::Unfinished;
            }
            left = rest - d;
            if self.eval_at(e, words) != 0 {
                return Ran::Ended(budget - left);
            }
        }
        Ran::Unfinished
    }

    // The statement at node p, again and again, until it comes to an exit.
    #[cycle(statement)]
    fn loop_at(&self, words: &mut [u16; 272], p: usize, d: u32, budget: u32) -> Ran
        requires { Runnable self.now (loop d (stmt_of self.now p)) }
        ensures { Runs self.now budget (loop d (stmt_of self.now p)) words.old result words.new }
    {
        let mut left = budget;
        // As above; and it is left by its turns alone.
        loop {
            let turn = self.run_at(words, p, left);
            let Ran::Ended(time) = turn else {
                return turn.later(budget - left).caught();
            };
            let rest = left - time;
            if rest < d {
                return Ran::Unfinished;
            }
            left = rest - d;
        }
    }

    // The body of procedure p, which may call those before it.
    #[cycle(statement)]
    fn body_at(&self, words: &mut [u16; 272], p: usize, budget: u32) -> Ran
        requires { Runnable self.now (body_of self.now p) }
        ensures { Runs self.now budget (body_of self.now p) words.old result words.new }
    {
        if self.procedures <= p {
            return Ran::Ended(0);
        }
        let body = self.tree.skip(0, p);
        let before = Interpreter {
            procedures: p,
            ..*self
        };
        before.run_at(words, body, budget)
    }

    // A call of procedure p: the delay, and then its body.
    #[cycle(statement)]
    fn call_at(&self, words: &mut [u16; 272], p: usize, d: u32, budget: u32) -> Ran
        requires { Runnable self.now (seq (tick d) (body_of self.now p)) }
        ensures { Runs self.now budget (seq (tick d) (body_of self.now p)) words.old result words.new }
    {
        if budget < d {
            return Ran::Unfinished;
        }
        self.body_at(words, p, budget - d).later(d)
    }

    // The statement at node i, from these words on.
    #[cycle(statement)]
    pub fn run_at(&self, words: &mut [u16; 272], i: usize, budget: u32) -> Ran
        requires { Runnable self.now (stmt_of self.now i) }
        ensures { Runs self.now budget (stmt_of self.now i) words.old result words.new }
    {
        let count = self.tree.program.len() / NODE;
        if count <= i {
            return Ran::Ended(0);
        }
        let node = nodes::read_node(self.tree.program, i);
        // A number: stmt_at of model/Program reads the byte itself, so an enum would be made for this one match, and proved to be that number.
        let kind = node.kind;
        if kind <= 16 {
            return Ran::Ended(0);
        }
        let d = node.delay as u32;
        let i1 = i + 1;
        let i2 = self.tree.next(i1);
        match kind {
            17 => Ran::pause(d, budget),
            18 => self.assign_at(words, i1, node.n, d, budget),
            19 => self.seq_at(words, i1, i2, budget),
            20 => self.par_at(words, i1, i2, budget),
            21 => {
                let i3 = self.tree.next(i2);
                self.if_at(words, i1, i2, i3, d, budget)
            }
            22 => self.while_at(words, i1, i2, d, budget),
            24 => self.assign_elem_at(words, i1, i2, node.n, d, budget),
            25 => self.loop_at(words, i1, d, budget),
            26 => Ran::Left(0),
            27 => {
                let p = node.n as usize;
                self.call_at(words, p, d, budget)
            }
            _ => self.repeat_at(words, i1, i2, d, budget),
        }
    }
}
