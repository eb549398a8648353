// The paper's cases, run by the circuit and by the rules, and compared with what the paper expects: a line for each.
// A row that does not hold prints "differs". Programs are bytes, four to a node: kind, delay, number.
#![tactic(auto)]

mod rows;
mod show;

use model::sizes::PROGRAM_MOST;
use rows::{ends, refuses, stays_open};
use show::{row, row_of};
use std::io;

fn main(rt: HostRuntime) -> io::Result<()> {
    cases_1_to_4(&rt)?;
    cases_5_to_8(&rt)?;
    cases_9_to_12(&rt)?;
    arrays(&rt)?;
    procedures(&rt)?;
    open_runs(&rt)?;
    lengths(&rt)
}

fn cases_1_to_4(rt: &impl Print) -> io::Result<()> {
    let ok = b"\x10\0\0\0";
    row(rt, "case 1", ok, 0, 10, ends(0, 0))?;
    let five = b"\x12\x01\0\0\x01\0\x05\0";
    row(rt, "case 2", five, 0, 10, ends(2, 5))?;
    let adding =
        b"\x13\0\0\0\x12\x10\0\0\x04\0\0\0\x02\0\0\0\x01\0\x03\0\x12\x10\0\0\x04\0\0\0\x02\0\0\0\x01\0\x04\0";
    row(rt, "case 3", adding, 0, 100, ends(34, 7))?;
    let hasty =
        b"\x13\0\0\0\x12\x10\0\0\x04\0\0\0\x02\0\0\0\x01\0\x03\0\x12\x0f\0\0\x04\0\0\0\x02\0\0\0\x01\0\x04\0";
    row(rt, "case 3 with 15", hasty, 0, 100, refuses(7, 5))?;
    let ticks = b"\x14\0\0\0\x11\x03\0\0\x11\x05\0\0";
    row(rt, "case 4", ticks, 0, 100, ends(5, 0))
}

fn cases_5_to_8(rt: &impl Print) -> io::Result<()> {
    let oks = b"\x14\0\0\0\x10\0\0\0\x10\0\0\0";
    row(rt, "case 5", oks, 0, 100, ends(0, 0))?;
    let while_above_0 = b"\x16\x01\0\0\x02\0\0\0\x12\x11\0\0\x05\0\0\0\x02\0\0\0\x01\0\x01\0";
    row(rt, "case 6", while_above_0, 3, 100, ends(58, 0))?;
    let until_0 =
        b"\x17\x06\0\0\x08\0\0\0\x02\0\0\0\x01\0\0\0\x12\x11\0\0\x05\0\0\0\x02\0\0\0\x01\0\x01\0";
    row(rt, "case 7 from 3", until_0, 3, 100, ends(72, 0))?;
    let choice = b"\x15\0\0\0\x02\0\0\0\x11\x01\0\0\x11\x09\0\0";
    row(rt, "case 8 from 0", choice, 0, 100, ends(9, 0))?;
    row(rt, "case 8 from 65535", choice, 65535, 100, ends(1, 65535))
}

fn cases_9_to_12(rt: &impl Print) -> io::Result<()> {
    let wrapping = b"\x12\x10\0\0\x04\0\0\0\x02\0\0\0\x01\0\x01\0";
    row(rt, "case 9", wrapping, 65535, 100, ends(17, 0))?;
    let spinning = b"\x16\0\0\0\x01\0\x01\0\x10\0\0\0";
    row(rt, "case 10 with 0", spinning, 0, 100, refuses(7, 0))?;
    let crossing = b"\x14\0\0\0\x12\x01\x01\0\x01\0\x01\0\x12\x01\x02\0\x02\0\x01\0";
    row(rt, "case 11", crossing, 0, 100, refuses(8, 0))?;
    let beside_tick =
        b"\x16\x01\0\0\x02\0\0\0\x14\0\0\0\x12\x11\0\0\x05\0\0\0\x02\0\0\0\x01\0\x01\0\x11\x02\0\0";
    row(rt, "case 12", beside_tick, 2, 100, ends(39, 0))
}

// Element 3 of array 1 is written by one index and read by another; array 4 is none; an element takes 4; an array is one variable.
fn arrays(rt: &impl Print) -> io::Result<()> {
    let through =
        b"\x13\0\0\0\x18\x01\x01\0\x02\0\0\0\x01\0\x07\0\x12\x04\0\0\x0a\0\x01\0\x01\0\x43\0";
    row(rt, "array 1 by 3 and 67", through, 3, 100, ends(7, 7))?;
    let fifth = b"\x18\x01\x04\0\x01\0\0\0\x01\0\0\0";
    row(rt, "array 4", fifth, 0, 100, refuses(4, 0))?;
    let hasty = b"\x18\x03\0\0\x01\0\0\0\x0a\0\0\0\x01\0\0\0";
    row(rt, "element with 3", hasty, 0, 100, refuses(7, 0))?;
    let crossing =
        b"\x14\0\0\0\x18\x01\0\0\x01\0\0\0\x01\0\x01\0\x12\x04\0\0\x0a\0\0\0\x01\0\x01\0";
    row(rt, "elements 0 and 1", crossing, 0, 100, refuses(8, 0))
}

// Two calls of x0 := x0 + 1; where no procedure is given; of itself; of a later one; from both sides; a clash behind a call; nine procedures.
fn procedures(rt: &impl Print) -> io::Result<()> {
    let twice = b"\x12\x10\0\0\x04\0\0\0\x02\0\0\0\x01\0\x01\0\x13\0\0\0\x1b\x01\0\0\x1b\x02\0\0";
    row_of(rt, "two calls", 1, twice, 0, 100, ends(37, 2))?;
    let call = b"\x1b\x01\0\0";
    row(rt, "call of none", call, 0, 100, refuses(24, 0))?;
    let itself = b"\x1b\x01\0\0\x10\0\0\0";
    row_of(rt, "call of itself", 1, itself, 0, 100, refuses(24, 0))?;
    let later = b"\x1b\x01\x01\0\x10\0\0\0\x10\0\0\0";
    row_of(rt, "call of a later one", 2, later, 0, 100, refuses(24, 0))?;
    let both = b"\x10\0\0\0\x14\0\0\0\x1b\x01\0\0\x1b\x01\0\0";
    row_of(rt, "call from both sides", 1, both, 0, 100, refuses(25, 1))?;
    let behind = b"\x12\x01\0\0\x01\0\x05\0\x14\0\0\0\x1b\x01\0\0\x12\x01\0\0\x01\0\x06\0";
    row_of(rt, "clash behind a call", 1, behind, 0, 100, refuses(8, 2))?;
    row_of(rt, "nine procedures", 9, call, 0, 100, refuses(1, 0))
}

// The two runs that stay open.
fn open_runs(rt: &impl Print) -> io::Result<()> {
    let until_0 =
        b"\x17\x06\0\0\x08\0\0\0\x02\0\0\0\x01\0\0\0\x12\x11\0\0\x05\0\0\0\x02\0\0\0\x01\0\x01\0";
    row(
        rt,
        "case 7 from 0",
        until_0,
        0,
        1000000,
        stays_open(1000000),
    )?;
    let endless = b"\x16\x01\0\0\x01\0\x01\0\x10\0\0\0";
    row(rt, "case 10", endless, 0, 1000000, stays_open(1000000))
}

// No node; 201 nodes; and 200, which are sequences of an assignment and then ok.
fn lengths(rt: &impl Print) -> io::Result<()> {
    row(rt, "no node", b"", 0, 100, refuses(1, 0))?;
    let mut many = [0u8; 804];
    rows::set_kinds(&mut many, 0, 201, 16);
    row(rt, "201 nodes", &many, 0, 100, refuses(1, 0))?;
    let mut most = [0u8; PROGRAM_MOST];
    most[396] = 18;
    most[397] = 1;
    most[400] = 1;
    rows::set_kinds(&mut most, 0, 99, 19);
    rows::set_kinds(&mut most, 101, 200, 16);
    row(rt, "200 nodes", &most, 0, 100, ends(2, 0))
}
