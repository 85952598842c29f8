// Request rows as the second planner and the test of all pairs see them, read from document 01 anew. Nothing here is the planner's or the inspector's.
// Places, and what rows take, are counted in steps of 16 bytes, since each is a multiple of those.
use crate::refusal::Refusal;
use arrayvec::ArrayVec;

// The most rows that a table may have.
pub(crate) const GREATEST_ROWS: usize = 1024;

const GREATEST_SPACE: u32 = 16777216;

const LAST_MOMENT: u32 = 65535;

// A good row: its number, its size, its life, and where it is once it is placed, as a fixed row is from the start.
#[derive(Clone, Copy, Default)]
pub struct Request {
    pub number: u32,
    size: u32,
    first: u32,
    last: u32,
    pub place: Option<u32>,
}

// The place that an offset's word is, if that is a multiple of 16, from 0.
pub(crate) fn place(offset: i32) -> Option<u32> {
    let offset = u32::try_from(offset).ok()?;
    (offset % 16 == 0).then_some(offset / 16)
}

// How many bytes so many steps are.
pub(crate) fn bytes(steps: u32) -> u64 {
    u64::from(steps) * 16
}

impl Request {
    // The row of that number and of four words, if it is good.
    fn read(number: u32, words: &[i32; 4]) -> Option<Request> {
        let [size, first, last, offset] = *words;
        let size = u32::try_from(size).ok()?;
        let first = u32::try_from(first).ok()?;
        let last = u32::try_from(last).ok()?;
        let fixed = match offset {
            -1 => None,
            _ => Some(place(offset)?),
        };
        let good = size <= GREATEST_SPACE
            && first <= last
            && last <= LAST_MOMENT
            && fixed.unwrap_or(0) <= GREATEST_SPACE / 16;
        good.then_some(Request {
            number,
            size,
            first,
            last,
            place: fixed,
        })
    }

    // The size in steps, the last of them begun: what the row takes.
    pub(crate) fn taken(&self) -> u32 {
        self.size.div_ceil(16)
    }

    // Whether the row is fixed, and not at that offset.
    pub(crate) fn is_moved(&self, offset: i32) -> bool {
        self.place.is_some() && self.place != place(offset)
    }

    // The row at a place.
    pub(crate) fn at(&self, start: u32) -> Buffer {
        Buffer {
            first: self.first,
            last: self.last,
            start,
            end: start.saturating_add(self.taken()),
        }
    }

    // The row where it is, if it is placed.
    pub(crate) fn placed(&self) -> Option<Buffer> {
        self.place.map(|start| self.at(start))
    }

    // Where the row ends, or 0 if it is not placed.
    pub(crate) fn end(&self) -> u32 {
        self.placed().map_or(0, |buffer| buffer.end)
    }

    // Whether two rows are placed, and meet there.
    pub(crate) fn meets(&self, other: &Request) -> bool {
        match (self.placed(), other.placed()) {
            (Some(ours), Some(theirs)) => ours.meets(&theirs),
            _ => false,
        }
    }
}

// A row at a place.
#[derive(Clone, Copy)]
pub struct Buffer {
    first: u32,
    last: u32,
    pub start: u32,
    pub end: u32,
}

impl Buffer {
    // Whether two rows are out at one moment on one step. What both have of the moments is from the later first to the earlier last, and of the steps
    // from the higher start to the lower end; an empty row has no step.
    pub(crate) fn meets(&self, other: &Buffer) -> bool {
        self.first.max(other.first) <= self.last.min(other.last)
            && self.start.max(other.start) < self.end.min(other.end)
    }
}

// Puts a table's rows into the empty vector that is lent, unless document 01 refuses the table with the numbers 1 to 5. As many rows as are allowed fit.
pub(crate) fn read(
    requests: &[i32],
    space: u32,
    room: usize,
    rows: &mut ArrayVec<Request, GREATEST_ROWS>,
) -> Result<(), Refusal> {
    let (table, rest) = requests.as_chunks::<4>();
    if !rest.is_empty() {
        return Err(Refusal::NotWholeRows);
    }
    if GREATEST_ROWS < table.len() {
        return Err(Refusal::TooMany);
    }
    if room < table.len() {
        return Err(Refusal::TableTooShort);
    }
    if GREATEST_SPACE < space {
        return Err(Refusal::SpaceTooLarge);
    }
    for (row, words) in table.iter().enumerate() {
        let request = Request::read(row as u32, words).ok_or(Refusal::BadRow(row))?;
        rows.try_push(request).map_err(|_| Refusal::TooMany)?;
    }
    Ok(())
}
