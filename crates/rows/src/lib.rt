// Tables of results worked out by hand from the papers are in specs/, each computed; this crate has no code, and nothing cites it.
#![tactic(auto)]
