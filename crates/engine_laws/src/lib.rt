// The laws that the engine's functions go by are in specs/; this crate has no code.
#![tactic(auto)]
