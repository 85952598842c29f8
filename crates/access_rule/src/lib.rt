// The rows of a touch script. What they mean is in specs/: good touches, the run, the script's answer and demand 3.
#![tactic(auto)]

use units::{Moment, Row};

// One touch: a byte of a request row that is read or written at a moment. One that writes has a value, one that reads has none.
#[derive(Clone, Copy, PartialEq, Eq)]
pub struct Access {
    pub moment: Moment,
    pub row: Row,
    pub index: u32,
    pub write: Option<u32>,
}
