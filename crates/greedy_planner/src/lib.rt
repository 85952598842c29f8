// The greedy planner: document 01's rule for where each tensor sits.
#![tactic(auto)]

mod need;
mod order;
mod place;

ghost use Rattle.std.specs.Prelude.{◌<◌, ◌≤◌, ◌^◌, ◌≡◌, length};
ghost use Rattle.answer.specs.Refusals.{answer_of, verdict_of};
ghost use Rattle.request_table.specs.Limits.{grid as grid_of, greatest_rows};
ghost use Rattle.request_table.specs.Table.{rows as rows_of};
ghost use Rattle.greedy_rule.specs.Plan.{plan_of, planned_table};
ghost use Rattle.greedy_planner.specs.Arrays.{SmallOffsets, stored_table};
ghost use Rattle.greedy_planner.specs.Judged.{Placeable, Judged};

use answer::{Answer, Cause, Refusal};
use request_rows::Table;
use request_table::GREATEST_ROWS;
use units::Offset;

// The checks 1 to 6, in their order.
fn check(table: &Table, space: u32, room: usize) -> Result<(), Refusal>
    ensures { Judged table.now.grid table.now.words.now space room (verdict_of result) }
{
    requests::check(table, space, room)?;
    match fixed_rows::first_pair(table) {
        Some((a, b)) => Err(Refusal::pair(Cause::FixedRowsCollide, a.0 as u32, b.0 as u32)),
        None => Ok(()),
    }
}

// Stores the offsets of the table's rows in the first entries of the answer table.
fn store(table: &Table, found: &[Offset; GREATEST_ROWS], offsets: &mut [i32])
    requires table_bound { (rows_of table.now.words.now ≤ greatest_rows) × (rows_of table.now.words.now ≤ length offsets.old) }
    requires small_offsets { SmallOffsets table.now.words.now found.now }
    ensures { offsets.new ≡ stored_table table.now.words.now found.now offsets.old }
{
    for row in 0..table.rows() {
        offsets[row] = found[row].0 as i32;
    }
}

// Places the rows of a table that passes the checks 1 to 6, and stores their offsets if the need keeps to the space. The bound on the grid keeps every end
// far from an overflow. The offsets are found before anything is stored, and stand in one array: a struct with the answer would hold a second.
fn fit(table: &Table, space: u32, offsets: &mut [i32]) -> Result<u64, Refusal>
    requires grid_nonzero { (0 < table.now.grid) × (table.now.grid ≤ 2 ^ 24) }
    requires placeable { Placeable table.now.grid table.now.words.now space (length offsets.old) }
    ensures answer { answer_of result ≡ plan_of table.now.grid table.now.words.now space (length offsets.old) }
    ensures table { offsets.new ≡ planned_table table.now.grid table.now.words.now space offsets.old }
{
    let found = place::place_rows(table, &order::order_rows(table));
    let need = need::need_of(table, &found);
    let exceeds = (space as u64) < need;
    if exceeds {
        return Err(Refusal::with_need(Cause::NeedExceedsSpace, need));
    }
    store(table, &found, offsets);
    Ok(need)
}

// The need of the plan that is stored, or why there is none.
fn plan_table(table: &Table, space: u32, offsets: &mut [i32]) -> Result<u64, Refusal>
    requires { (0 < table.now.grid) × (table.now.grid ≤ 2 ^ 24) }
    ensures answer { answer_of result ≡ plan_of table.now.grid table.now.words.now space (length offsets.old) }
    ensures table { offsets.new ≡ planned_table table.now.grid table.now.words.now space offsets.old }
{
    check(table, space, offsets.len())?;
    fit(table, space, offsets)
}

// Document 01's planner. Refused: 1 to 7, in that order; done: the need, and the offsets of the greedy rule in the first entries of `offsets`.
pub fn plan(requests: &[i32], space: u32, offsets: &mut [i32]) -> Answer
    ensures answer { result ≡ plan_of grid_of requests.now space (length offsets.old) }
    ensures table { offsets.new ≡ planned_table grid_of requests.now space offsets.old }
{
    let table = Table {
        grid: requests::GRID,
        words: requests,
    };
    Answer::from(plan_table(&table, space, offsets))
}
