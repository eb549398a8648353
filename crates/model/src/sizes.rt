// Sizes and limits that code goes by, each the paper's. Definitions have the numbers themselves; the limits of a netlist and of its file are those of
// specs/NetlistFile.

// A netlist file: blocks of a header and so many cells, and a last cell's number in its block.
pub const BLOCK: usize = 512;

pub const BLOCK_HEADER: usize = 8;

pub const BLOCK_CELLS: usize = 84;

// Blocks are rounded up by netlist's `blocks_for`, which does without it.
pub const BLOCK_LAST: usize = 83;

pub const CELL: usize = 6;

pub const MOST_CELLS: usize = 16384;

pub const FILE_MOST: usize = 196 * BLOCK;

// A list of the cells of any imperative program, and room for its file and its state.
pub const COMPILED_MOST: usize = 3762;

pub const COMPILED_FILE: usize = 6656;

pub const COMPILED_STATE: usize = 41480;

// A state: a header, for each cell its values, held bits and line, and then the elements.
pub const STATE_HEADER: usize = 8;

pub const STATE_CELL: usize = 40;

pub const STATE_LINE: usize = 8;

pub const LINE: usize = 32;

pub const ELEMENTS: usize = 512;

// A compact state: a cell, and its line's number.
pub const COMPACT_CELL: usize = 8;

pub const COMPACT_LEFT: usize = 6;

// A program, a text, the start words, a run.
pub const NODE: usize = 4;

pub const MOST_NODES: usize = 200;

pub const PROGRAM_MOST: usize = 800;

pub const TEXT_MOST: usize = 4096;

pub const START_WORDS: usize = 544;

pub const VARIABLES: usize = 32;

pub const LAST_INSTANT: u32 = 1000000;
