// How a code is handed to the engine: its shape in numbers, and its parity table as one flat list.

#![tactic(auto)]

ghost use Rattle.layout.specs.Lent.{Fit};

#[derive(Clone, Copy)]
pub struct Shape {
    // M, the size of a block
    pub size: usize,
    // the 64-bit words that hold M bits
    pub words: usize,
    // blocks in a row, and rows
    pub blocks: usize,
    pub rows: usize,
}

// A code's parity table as the engine has it: two places for each block, row after row, and its shape.
#[derive(Clone, Copy)]
pub struct Parity<'a> {
    pub places: &'a [u16],
    pub shape: Shape,
    pub ghost fit: { Fit places.now shape },
}

// How long the arrays are that hold a code's parts, whatever the code: the 64-bit words of a word, with two to read past it, of a
// syndrome, of a block and of a doubled block; and the places of a parity table.
pub const WORD: usize = 130;

pub const SYNDROME: usize = 16;

pub const BLOCK: usize = 8;

pub const DOUBLED: usize = 16;

pub const TABLE: usize = 64;

// And of what a run keeps: the words of the rows of a syndrome, each twice over, with one to read past them; eight starts for each
// block; and a number for each block.
pub const ROWS: usize = 65;

pub const STARTS: usize = 128;

pub const BLOCKS: usize = 16;
