// Plans with one change each, so that the inspector meets bad ones.
use crate::draw::{self, Purpose};

// How many changes of a plan are tried. The first is none, the others are by thirds of each kind.
pub(crate) const CHANGES: u32 = 13;

// A change of a plan: none, an offset moved by a step of the grid, or two exchanged.
#[derive(Clone, Copy)]
enum Change {
    Nothing,
    Moved(usize, i32),
    Exchanged(usize, usize),
}

// The change of that number of a plan of so many rows: none, a row moved up, or down, or two exchanged.
fn change_of(rows: u32, table: u32, change: u32) -> Change {
    let row = draw::below(rows, table, Purpose::ChangedRow(change)) as usize;
    let other = draw::below(rows, table, Purpose::OtherRow(change)) as usize;
    match (change, change % 3) {
        (0, _) => Change::Nothing,
        (_, 0) => Change::Moved(row, 16),
        (_, 1) => Change::Moved(row, -16),
        _ => Change::Exchanged(row, other),
    }
}

// Makes the change of that number to a plan of so many rows.
pub(crate) fn apply(offsets: &mut [i32], rows: u32, table: u32, change: u32) {
    match change_of(rows, table, change) {
        Change::Nothing => {}
        Change::Moved(row, by) => {
            if let Some(offset) = offsets.get_mut(row) {
                *offset = offset.saturating_add(by);
            }
        }
        Change::Exchanged(a, b) => {
            if a < offsets.len() && b < offsets.len() {
                offsets.swap(a, b);
            }
        }
    }
}
