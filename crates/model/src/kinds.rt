// Rows of the two tables of kinds: of nodes, for the check of a program, and of cells, for the check of a netlist.
// They stand here because specs/Program and specs/Circuit speak of them, and a definition can speak of no type of a crate above its own.

// A kind's row of the paper's table of nodes; specs/Program says what its numbers mean, and its table, which this row is of, has numbers.
#[derive(Clone, Copy)]
pub struct Row {
    pub sort: u8,
    pub delay: u8,
    pub number: u8,
    pub exprs: u8,
    pub stmts: u8,
}

// What a cell's delay, a or b is: of an unknown kind; unused, so zero; any value; a value from 1 to 255; or the number of a cell. That is
// a control wire or a word wire, and stands below the cell that names it, or anywhere; or it is an array, and stands below.
#[derive(Clone, Copy)]
pub enum Use {
    Unknown,
    Unused,
    Value,
    Positive,
    ControlBelow,
    ControlAny,
    WordBelow,
    WordAny,
    ArrayBelow,
}

// A kind's row of the table of cells: whether it is a control wire, and what its fields are.
#[derive(Clone, Copy)]
pub struct CellRow {
    pub control: bool,
    pub delay: Use,
    pub a: Use,
    pub b: Use,
}
