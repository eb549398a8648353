// The engine's tables: what it asks of a netlist, made once for a call. A table is made by code that is only safe, and then checked.
#![tactic(auto)]

pub mod cells;
pub mod gates;
pub mod words;
