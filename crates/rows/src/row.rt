// A row of a table, the numbers of its kinds, and the two numbers that bound a table.
#[derive(Clone, Copy, Debug, Default, PartialEq, Eq)]
pub struct Row {
    pub kind: u32,
    pub end: u32,
    pub w0: u32,
    pub w1: u32,
    pub w2: u32,
    pub w3: u32,
}

impl Row {
    // Numbers and no enum: a table is lent memory of C, and in one that nobody checked any number may stand for a kind.
    pub const FALSE: u32 = 1;

    pub const TRUE: u32 = 2;

    pub const NONE: u32 = 3;

    pub const SMALL: u32 = 4;

    pub const SIGNED: u32 = 5;

    pub const UNSIGNED: u32 = 6;

    pub const FLOAT: u32 = 7;

    pub const TEXT: u32 = 8;

    pub const ARRAY: u32 = 9;

    pub const RECORD: u32 = 10;

    pub const MAP: u32 = 11;

    pub const BINARY: u32 = 12;

    pub const CHAR: u32 = 13;

    pub const REFERENCE: u32 = 14;

    pub const DECLARATION: u32 = 15;

    pub const FOREIGN: u32 = 16;

    pub const KEY: u32 = 17;

    // How many numbers of the table a row takes.
    pub const WORDS: usize = 6;

    // The most bytes of a document, and the most rows of a table.
    pub const LIMIT: usize = 16777215;
}
