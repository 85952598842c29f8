// The rows of the request table, and how many there may be. What they mean is in specs/: good rows, occupied sizes, colliding, the need and the checks
// 1 to 5.
#![tactic(auto)]

use units::{Moment, Offset};

// A row of the table is this many words: size, first moment, last moment, fixed offset.
pub const ROW_WORDS: usize = 4;
// At most this many rows.
pub const GREATEST_ROWS: usize = 1024;
// The greatest size, fixed offset and space.
pub const GREATEST_SPACE: u32 = 16777216;

// One row of the table. A fixed row has its offset, any other has none.
#[derive(Clone, Copy, PartialEq, Eq)]
pub struct Request {
    pub size: u32,
    pub first: Moment,
    pub last: Moment,
    pub offset: Option<Offset>,
}

// A row at an offset: document 01's span, with the row's life.
#[derive(Clone, Copy, PartialEq, Eq)]
pub struct Buffer {
    pub first: Moment,
    pub last: Moment,
    pub offset: Offset,
    pub length: u64,
}
