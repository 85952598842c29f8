// Why document 01 refuses a table or a plan, read from it anew, and the answers that tell it.
use answer::Answer;

// The rows that are told, or the need.
#[derive(Clone, Copy)]
pub enum Refusal {
    NotWholeRows,
    TooMany,
    TableTooShort,
    SpaceTooLarge,
    BadRow(usize),
    FixedRowsCollide(usize, usize),
    NeedExceedsSpace(u64),
    FixedRowMoved(usize),
    BadOffset(usize),
    RowsCollide(usize, usize),
}

// An answer, with a number of document 01. A row whose number is no 32 bits is told as the greatest, which no answer of the planner has.
fn told(number: u32, a: usize, b: usize, need: u64) -> Answer {
    let a = u32::try_from(a).unwrap_or(u32::MAX);
    let b = u32::try_from(b).unwrap_or(u32::MAX);
    Answer { number, a, b, need }
}

impl From<Refusal> for Answer {
    fn from(refusal: Refusal) -> Answer {
        match refusal {
            Refusal::NotWholeRows => told(1, 0, 0, 0),
            Refusal::TooMany => told(2, 0, 0, 0),
            Refusal::TableTooShort => told(3, 0, 0, 0),
            Refusal::SpaceTooLarge => told(4, 0, 0, 0),
            Refusal::BadRow(row) => told(5, row, 0, 0),
            Refusal::FixedRowsCollide(a, b) => told(6, a, b, 0),
            Refusal::NeedExceedsSpace(need) => told(7, 0, 0, need),
            Refusal::FixedRowMoved(row) => told(8, row, 0, 0),
            Refusal::BadOffset(row) => told(9, row, 0, 0),
            Refusal::RowsCollide(a, b) => told(10, a, b, 0),
        }
    }
}

// The answer to what was worked out: 0 with the need, or the refusal's.
pub(crate) fn tell(outcome: Result<u64, Refusal>) -> Answer {
    match outcome {
        Ok(need) => told(0, 0, 0, need),
        Err(refusal) => refusal.into(),
    }
}
