// The words of a run, and the values of expressions on them. Of the 272 words sixteen are the variables', and 64 each array's.
// Contracts are equations with model/Rules and model/Calls; specs/Ran says which store an array of words stands for.
// Words are lent, so that none of the calls within each other has a copy of them. Widening casts are `as`, with which proofs compute.
ghost use Rattle.std.specs.Prelude.{◌≡◌, ◌≤◌, length};
ghost use Rattle.model.specs.Word.{element_word};
ghost use Rattle.model.specs.Rules.{eval};
ghost use Rattle.model.specs.Calls.{word_at, listed};
ghost use Rattle.program.specs.Ends.{Laid};
ghost use Rattle.rules.specs.Ran.{store_of, expr_of};

use crate::statements::Interpreter;
use model::sizes::NODE;
use program::nodes;

// The start words, from 544 bytes; what lies past them is not looked at.
pub fn start_words(bytes: &[u8]) -> [u16; 272]
    requires { 544 ≤ length bytes.now }
    ensures { result ≡ listed (word_at bytes.now) 0 272 }
{
    let mut words = [0; 272];
    for (x, held) in words.iter_mut().enumerate() {
        *held = word::get16(bytes, 2 * x);
    }
    words
}

// The words of the variables, which are the first sixteen.
pub fn variables(words: &[u16; 272]) -> [u16; 16]
    ensures { result ≡ listed (store_of words.now) 0 16 }
{
    let mut held = [0; 16];
    held.copy_from_slice(&words[..16]);
    held
}

// The word of a variable or an element; 0 past the last, as a store of model/Rules has one for every number.
fn word_of(words: &[u16; 272], x: usize) -> u16
    ensures { result ≡ store_of words.now x }
{
    words.get(x).copied().unwrap_or(0)
}

// Which word an element is. "Only the low six bits of an index count."
pub fn element_word(array: u16, index: u16) -> usize
    ensures { result ≡ element_word array index }
{
    16 + (64 * array as usize + index as usize % 64)
}

impl Interpreter<'_> {
    // The expression at node i, on these words; where there is none it is 0, as eval of model/Rules has it.
    pub fn eval_at(&self, i: usize, words: &[u16; 272]) -> u16
        requires { Laid self.now.tree.program.now self.now.tree.ends.now }
        ensures { result ≡ eval (expr_of self.now i) (store_of words.now) }
    {
        let count = self.tree.program.len() / NODE;
        if count <= i {
            return 0;
        }
        let node = nodes::read_node(self.tree.program, i);
        // A number, as expr_at of model/Program reads it and word::operate takes it.
        let kind = node.kind;
        if 16 <= kind {
            return 0;
        }
        if kind == 1 {
            return node.n;
        }
        if kind == 2 {
            return word_of(words, node.n as usize);
        }
        let first = self.eval_at(i + 1, words);
        if kind == 3 {
            return word::operate(3, first, 0);
        }
        if kind == 10 {
            return word_of(words, element_word(node.n, first));
        }
        let second = self.eval_at(self.tree.next(i + 1), words);
        word::operate(kind, first, second)
    }
}
