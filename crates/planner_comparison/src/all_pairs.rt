// A plan judged directly: every row by itself, then every two. This is what the inspector is compared with.
use crate::refusal::{self, Refusal};
use crate::rows::{self, Request};
use answer::Answer;
use arrayvec::ArrayVec;

// The first two that meet, if any do.
pub(crate) fn first_pair<T, F: Fn(&T, &T) -> bool>(items: &[T], meet: F) -> Option<(usize, usize)>
    requires { F.IsAlwaysCallable meet }
{
    for (a, item) in items.iter().enumerate() {
        let after = &items[a + 1..];
        if let Some(between) = after.iter().position(|other| meet(item, other)) {
            return Some((a, a + 1 + between));
        }
    }
    None
}

// The greatest end of a placed row that takes bytes, or 0.
pub(crate) fn need(rows: &[Request]) -> u64 {
    let end = rows
        .iter()
        .filter_map(Request::placed)
        .filter(|buffer| buffer.start < buffer.end)
        .map(|buffer| buffer.end)
        .max();
    end.map_or(0, rows::bytes)
}

// The need, or the numbers 7 and 10.
fn judge_placed(space: u32, rows: &[Request]) -> Result<u64, Refusal> {
    let need = need(rows);
    if u64::from(space) < need {
        return Err(Refusal::NeedExceedsSpace(need));
    }
    match first_pair(rows, Request::meets) {
        Some((a, b)) => Err(Refusal::RowsCollide(a, b)),
        None => Ok(need),
    }
}

// Puts the rows at their offsets, or tells the numbers 8 and 9.
fn propose(rows: &mut [Request], offsets: &[i32]) -> Result<(), Refusal> {
    let moved = rows
        .iter()
        .zip(offsets)
        .position(|(request, offset)| request.is_moved(*offset));
    if let Some(row) = moved {
        return Err(Refusal::FixedRowMoved(row));
    }
    for (row, (request, offset)) in rows.iter_mut().zip(offsets).enumerate() {
        let place = rows::place(*offset).ok_or(Refusal::BadOffset(row))?;
        request.place = Some(place);
    }
    Ok(())
}

// The need of a plan, or what document 01 refuses it for.
fn need_of_plan(requests: &[i32], space: u32, offsets: &[i32]) -> Result<u64, Refusal> {
    let mut rows = ArrayVec::new();
    rows::read(requests, space, offsets.len(), &mut rows)?;
    propose(&mut rows, offsets)?;
    judge_placed(space, &rows)
}

// What the inspector is to answer.
pub(crate) fn judge(requests: &[i32], space: u32, offsets: &[i32]) -> Answer {
    refusal::tell(need_of_plan(requests, space, offsets))
}
