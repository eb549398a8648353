// The laws of the model that code and theorems go by are in specs/; this crate has no code.
#![tactic(auto)]
