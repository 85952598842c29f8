// The checks 1 to 5 of the request table (document 01, "The desk's order of checks"), with which every planner and the inspector begin. All is total: any
// table, any space, any room, any grid.
#![tactic(auto)]

ghost use Rattle.std.specs.Prelude.{◌≤◌, ◌≡◌};
ghost use Rattle.answer.specs.Refusals.{verdict_of};
ghost use Rattle.request_table.specs.Limits.{greatest_rows};
ghost use Rattle.request_table.specs.Table.{rows as rows_of};
ghost use Rattle.request_table.specs.Checks.{shape_of, content_of, check_of};

use answer::{Cause, Refusal};
use request_rows::Table;
use request_table::{GREATEST_ROWS, GREATEST_SPACE, ROW_WORDS};

// The grid: rounding, fixed offsets and proposed offsets go by it.
pub const GRID: u32 = 16;

// The checks 1 to 3: the tables' lengths.
fn check_shape(table: &[i32], room: usize) -> Result<(), Refusal>
    ensures { verdict_of result ≡ shape_of table.now room }
{
    let n = table.len() / ROW_WORDS;
    let ragged = table.len() % ROW_WORDS != 0;
    length_checks::check(ragged, GREATEST_ROWS < n, room < n)
}

// The checks 4 and 5: the space, which is told with no place, and the rows.
fn check_content(table: &Table, space: u32) -> Result<(), Refusal>
    requires { rows_of table.now.words.now ≤ greatest_rows }
    ensures { verdict_of result ≡ content_of table.now.grid table.now.words.now space }
{
    let bad = table.lowest_bad_row();
    let too_large = GREATEST_SPACE < space;
    if too_large {
        return Err(Refusal::at(Cause::SpaceTooLarge, 0));
    }
    if let Some(row) = bad {
        return Err(Refusal::at(Cause::BadRow, row.0 as u32));
    }
    Ok(())
}

// The checks 1 to 5, in their order, of a request table, a space and an answer or proposal table with this room: a refusal, or done with no need.
pub fn check(table: &Table, space: u32, room: usize) -> Result<(), Refusal>
    ensures { verdict_of result ≡ check_of table.now.grid table.now.words.now space room }
{
    check_shape(table.words, room)?;
    check_content(table, space)
}
