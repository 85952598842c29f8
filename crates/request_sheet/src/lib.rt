// The reply to a request sheet (document 01, "The request sheet"; document 02, order 1, for version 2): the sheet is read, its shapes sized where it has
// them, its table planned and the answer told as text. Reading a sheet and writing a text are crates that do not know each other.
#![tactic(auto)]

ghost use Rattle.std.specs.Prelude.{◌*◌, ◌%◌, ◌≤◌, ◌≡◌, length};
ghost use Rattle.text_rule.specs.Text.{greatest_text};
ghost use Rattle.request_table.specs.Limits.{greatest_rows};
ghost use Rattle.request_table.specs.Table.{rows};
ghost use Rattle.shape_rule.specs.ShapeTable.{shape_count};
ghost use Rattle.text_pieces.specs.Replied.{Stands};
ghost use Rattle.reply_rule.specs.Reply.{table_text, shapes_text, reply_of, text_after};

use answer::Answer;
pub use plan_text::GREATEST_TEXT;
use request_table::{GREATEST_ROWS, ROW_WORDS};
use shape_rule::SHAPE_WORDS;
pub use sheet_bytes::GREATEST_SHEET;
use sheet_bytes::SHEET_WORDS;
use sheet_rule::Sheet;

// The words of the longest request table.
const REQUEST_WORDS: usize = GREATEST_ROWS * ROW_WORDS;

// Plans a table with room for every row, and writes what came of it. Gives how many bytes were written. The tables here and below are arrays of the greatest
// length, of which the rows' part is used, since no library has a heap.
fn write_plan(requests: &[i32], space: u32, text: &mut [u8]) -> Option<usize>
    requires { (rows requests.now ≤ greatest_rows) × (greatest_text ≤ length text.old) }
    ensures { Stands (table_text requests.now space) text.old text.new result }
{
    let rows = requests.len() / ROW_WORDS;
    let mut offsets = arrays::filled::<i32, GREATEST_ROWS>(0);
    let answer = greedy_planner::plan(requests, space, &mut offsets[..rows]);
    plan_text::write_answer(answer, &offsets[..rows], text)
}

// Plans the requests that good shapes make, or writes the refusal of the first bad one. Gives how many bytes were written.
fn write_shapes(shapes: &[i32], space: u32, text: &mut [u8]) -> Option<usize>
    requires { (length shapes.now % 13 ≡ 0) × (shape_count shapes.now ≤ greatest_rows) × (greatest_text ≤ length text.old) }
    ensures { Stands (shapes_text shapes.now space) text.old text.new result }
{
    let entries = shapes.len() / SHAPE_WORDS * ROW_WORDS;
    let mut requests = arrays::filled::<i32, REQUEST_WORDS>(0);
    let answer = shaped_requests::from_shapes(shapes, &mut requests);
    // The entry point answers by its number, as document 01 has it, so that the number tells whether it is done.
    if answer.number != Answer::DONE {
        return plan_text::write_answer(answer, &requests[..0], text);
    }
    write_plan(&requests[..entries], space, text)
}

// The text of the plan, of its refusal or of a bad sheet stands in the first bytes of `text`, so many as are told, and the rest stays. A `text` of fewer bytes
// than the longest has is left as it was, and none is told, whatever the sheet.
pub fn reply(sheet: &[u8], text: &mut [u8]) -> Option<usize>
    ensures reply { result ≡ reply_of sheet.now (length text.old) }
    ensures text { text.new ≡ text_after sheet.now text.old }
{
    if text.len() < GREATEST_TEXT {
        return None;
    }
    let mut words = arrays::filled::<i32, SHEET_WORDS>(0);
    let Some(read) = sheet_bytes::read(sheet, &mut words) else {
        return plan_text::write_bad_sheet(text);
    };
    match read {
        Sheet::Requests(count, space) => write_plan(&words[..count], space, text),
        Sheet::Shapes(count, space) => write_shapes(&words[..count], space, text),
    }
}
