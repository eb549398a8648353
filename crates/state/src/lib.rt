// The bytes of a state, full or compact: its cells' values, held bits and lines, the number in flight, and refusal 15.
// Each contract is an equation with model/State.
#![tactic(auto)]

pub mod wires; // one cell's bytes in a state
pub mod lines; // its line
pub mod flight; // the number in flight, counted
pub mod sound; // refusal 15
