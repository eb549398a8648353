// The table of node kinds in code.
// The contract is an equation with model/Program.
ghost use Rattle.std.specs.Prelude.{◌≡◌};
ghost use Rattle.model.specs.Program.{row_of};

use model::kinds::Row;

// A row of the table in one line: sort, delay, number, exprs, stmts.
#[derive(Clone, Copy)]
struct Line(u8, u8, u8, u8, u8);

// The paper's table, but for its times: entry k is the row of kind k.
const TABLE: [Line; 28] = [
    Line(0, 0, 0, 0, 0), // 0 unknown
    Line(1, 0, 1, 0, 0), // 1 constant n
    Line(1, 0, 2, 0, 0), // 2 variable n
    Line(1, 0, 0, 1, 0), // 3 complement of all bits
    Line(1, 0, 0, 2, 0), // 4 sum
    Line(1, 0, 0, 2, 0), // 5 difference
    Line(1, 0, 0, 2, 0), // 6 bitwise and
    Line(1, 0, 0, 2, 0), // 7 bitwise or
    Line(1, 0, 0, 2, 0), // 8 equal
    Line(1, 0, 0, 2, 0), // 9 less
    Line(1, 0, 3, 1, 0), // 10 element of array n
    Line(0, 0, 0, 0, 0), // 11
    Line(0, 0, 0, 0, 0), // 12
    Line(0, 0, 0, 0, 0), // 13
    Line(0, 0, 0, 0, 0), // 14
    Line(0, 0, 0, 0, 0), // 15
    Line(2, 0, 0, 0, 0), // 16 ok
    Line(2, 1, 0, 0, 0), // 17 tick
    Line(2, 1, 2, 1, 0), // 18 variable n := e
    Line(2, 0, 0, 0, 2), // 19 sequence
    Line(2, 0, 0, 0, 2), // 20 parallel
    Line(2, 1, 0, 1, 2), // 21 if e then P else Q
    Line(2, 1, 0, 1, 1), // 22 while e do P
    Line(2, 1, 0, 1, 1), // 23 repeat P until e
    Line(2, 1, 3, 2, 0), // 24 element of array n := e
    Line(2, 1, 0, 0, 1), // 25 loop P
    Line(2, 0, 0, 0, 0), // 26 exit
    Line(2, 1, 4, 0, 0), // 27 call of procedure n
];

// Of a kind that the table does not have, the row is that of kind 0.
pub fn kind_row(kind: u8) -> Row
    ensures { result ≡ row_of kind }
{
    let Line(sort, delay, number, exprs, stmts) = TABLE
        .get(kind as usize)
        .copied()
        .unwrap_or(TABLE[0]);
    Row {
        sort,
        delay,
        number,
        exprs,
        stmts,
    }
}
