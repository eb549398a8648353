// What is given beside a program: nothing, or a file of operator times, with refusals 19 to 21, the number of procedures, and the pulse length,
// with refusal 27.
// Contracts are equations with the definitions of model/TimeTables.
ghost use Rattle.std.specs.Prelude.{◌≡◌, length, get_or};
ghost use Rattle.model.specs.Refusals.{first, first_fault};
ghost use Rattle.model.specs.TimeTables.{byte_wrong, table_fault, table_checks, built_in, given, given_if, beside, load, defaults, given_check};

use model::sizes::BLOCK;
use model::{Checked, Options, refuse};

// The paper's operator times: entry k is that of kind k.
const BUILT_IN: [u8; 11] = [0, 0, 0, 1, 16, 17, 1, 1, 6, 17, 4];

// The built-in times, with so many procedures and this pulse length.
fn built_in(procedures: usize, pulse: u8) -> Options
    ensures { result ≡ load (beside built_in procedures pulse) }
{
    Options {
        checked: Ok(()),
        times: BUILT_IN,
        procedures,
        pulse,
    }
}

// What stands for 'nothing given': the built-in times, no procedures, and pulses of one instant.
pub fn defaults() -> Options
    ensures { result ≡ defaults }
{
    built_in(0, 1)
}

// Byte i of a table may not be b; bytes 6 and 7 are the check.
fn byte_wrong(i: usize, b: u8) -> bool
    ensures { result ≡ byte_wrong i b }
{
    if i == 2 {
        return b != 10;
    }
    if (i == 6) | (i == 7) {
        return false;
    }
    if (10 <= i) & (i <= 17) {
        return (b == 0) | (200 < b);
    }
    b != 0
}

// Refusal 21: the first wrong byte.
fn first_wrong(file: &[u8]) -> Checked
    requires { length file.now ≡ 512 }
    ensures { result ≡ first_fault (table_fault file.now) 0 512 }
{
    for (i, b) in file.iter().enumerate() {
        if byte_wrong(i, *b) {
            return refuse(21, i);
        }
    }
    Ok(())
}

// Refusals 19 to 21.
fn check_table(file: &[u8]) -> Checked
    ensures { result ≡ first (table_checks file.now) }
{
    if file.len() != BLOCK {
        return refuse(19, 0);
    }
    if word::sum16(file, 0, 256) != 0 {
        return refuse(20, 0);
    }
    first_wrong(file)
}

// A byte of a file, 0 past its end: definition `times_in` takes the ten bytes so, one by one.
fn byte_at(file: &[u8], i: usize) -> u8
    ensures { result ≡ get_or file.now i 0 }
{
    file.get(i).copied().unwrap_or(0)
}

// The times that a file gives. Of a refused one they are of no use.
pub fn load(file: &[u8], procedures: usize, pulse: u8) -> Options
    ensures { result ≡ load (beside (given file.now) procedures pulse) }
{
    let checked = check_table(file);
    let times = [
        0,
        byte_at(file, 8),
        byte_at(file, 9),
        byte_at(file, 10),
        byte_at(file, 11),
        byte_at(file, 12),
        byte_at(file, 13),
        byte_at(file, 14),
        byte_at(file, 15),
        byte_at(file, 16),
        byte_at(file, 17),
    ];
    Options {
        checked,
        times,
        procedures,
        pulse,
    }
}

// With a flag that tells whether a file is given, as the C functions have it and definition `given_if` takes it.
pub fn load_if(timed: bool, file: &[u8], procedures: usize, pulse: u8) -> Options
    ensures { result ≡ load (beside (given_if timed file.now) procedures pulse) }
{
    if timed {
        return load(file, procedures, pulse);
    }
    built_in(procedures, pulse)
}

// Refusal 27, and then what the check of the table says. The test of 27 stands in netlist::blocks too, of a file's number: what
// the two share is one comparison.
pub fn check_given(options: Options) -> Checked
    ensures { result ≡ given_check options }
{
    if (options.pulse == 0) | (8 < options.pulse) {
        return refuse(27, 0);
    }
    options.checked
}
