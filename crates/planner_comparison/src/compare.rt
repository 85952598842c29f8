// The two planners beside each other, and the inspector beside the test of all pairs.
use crate::generator::Table;
use crate::rows::GREATEST_ROWS;
use crate::tally::Tally;
use crate::{all_pairs, changes, second_planner};
use answer::Answer;

// Entries enough for three more than the most rows that are tried.
const GREATEST_ROOM: usize = GREATEST_ROWS + 6;

// What every entry holds before. No plan has it.
const UNWRITTEN: i32 = 9999;

// What a planner answers and leaves. Two planners agree if their answers and every entry of their tables do.
#[derive(Clone, Copy, PartialEq)]
struct Planned<'a> {
    answer: Answer,
    offsets: &'a [i32; GREATEST_ROOM],
}

// The first so many entries.
fn lent(offsets: &mut [i32; GREATEST_ROOM], room: usize) -> &mut [i32] {
    let room = room.min(GREATEST_ROOM);
    &mut offsets[..room]
}

// What a planner answers and leaves where so many of the entries are lent to it.
fn left_by<'a, F: FnOnce(&mut [i32]) -> Answer>(
    offsets: &'a mut [i32; GREATEST_ROOM],
    room: usize,
    plan: F,
) -> Planned<'a>
    requires { F.IsAlwaysCallable plan }
{
    offsets.fill(UNWRITTEN);
    let answer = plan(lent(offsets, room));
    Planned { answer, offsets }
}

// The inspector's answer to offsets, beside our own.
fn inspect(requests: &[i32], space: u32, offsets: &[i32], tally: &mut Tally) {
    let answer = plan_inspector::inspect(requests, space, offsets);
    let other = all_pairs::judge(requests, space, offsets);
    tally.add_inspection(answer, answer == other);
}

// The inspector's answers to the changes of what a planner left, each made in the entries that are lent. Of a refusal only the first is tried: its table is
// inspected as it is.
fn inspect_changes(
    table: &Table,
    space: u32,
    planned: &Planned,
    changed: &mut [i32; GREATEST_ROOM],
    tally: &mut Tally,
) {
    let count = if planned.answer.number == Answer::DONE {
        changes::CHANGES
    } else {
        1
    };
    for change in 0..count {
        *changed = *planned.offsets;
        let offsets = lent(changed, table.room);
        changes::apply(offsets, table.rows, table.number, change);
        inspect(table.requests, space, offsets, tally);
    }
}

// Both planners' answers and tables in a space, and what the inspector says of the table that is left and of changed plans. Gives the first planner's
// answer.
pub(crate) fn plan(table: &Table, space: u32, tally: &mut Tally) -> Answer {
    let requests = table.requests;
    let mut offsets = arrays::filled(0);
    let mut other_offsets = arrays::filled(0);
    let first = left_by(&mut offsets, table.room, |offsets| {
        greedy_planner::plan(requests, space, offsets)
    });
    let second = left_by(&mut other_offsets, table.room, |offsets| {
        second_planner::plan(requests, space, offsets)
    });
    tally.add_plan(first.answer, first == second);
    inspect_changes(table, space, &first, &mut other_offsets, tally);
    first.answer
}
