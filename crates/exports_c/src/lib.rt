// The archive for other languages, libexports_c.a, which callers link as libhub.a: each function of crate exports that they call, under its C name. A
// crate is a library or an archive, so these stand apart from it: every body is one call, and every contract that of the function called, word for word.
#![tactic(auto)]

mod calls; // the calls on bytes
mod cells; // those on cell structs
mod functional_calls; // those for functional circuits
