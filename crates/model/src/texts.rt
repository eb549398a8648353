// What the scanner and the reader of a text go by, and nobody else. It stands here because specs/Text and specs/Reader speak of it, and a
// definition can speak of no type of a crate above its own.

// A token of a program's text; specs/Text says what its code and value mean, and goes by the code as a number.
#[derive(Clone, Copy)]
pub struct Token {
    pub code: u8,
    pub value: u16,
}

// What the reader of a text expects next; specs/Reader says what it does then.
#[derive(Clone, Copy)]
pub enum Mode {
    Statement,
    AfterStatement,
    Operand,
    AfterOperand,
    Becomes,
    Ticks,
    Delay,
    Body,
    Broken,
}
