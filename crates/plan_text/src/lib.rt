// The text of an answer (document 01, "The request sheet"), written into lent bytes. Each function that puts a line asks for its room and answers where
// the next line starts; the two public ones look for the room of any text first, so that no text is ever cut.
#![tactic(auto)]

ghost use Rattle.std.specs.Prelude.{◌+◌, ◌*◌, ◌≤◌, true, ◌≡◌, length};
ghost use Rattle.request_table.specs.Limits.{greatest_rows};
ghost use Rattle.text_pieces.specs.Put.{Put, Room};
ghost use Rattle.text_rule.specs.Text.{head_line, row_line, row_lines, plan_text, refused_text, answer_text, bad_sheet_text, offset_in};
ghost use Rattle.plan_text.specs.Written.{has_room, written_length, written_into};

use answer::Answer;
use request_table::GREATEST_ROWS;
use text_pieces::{put_number, put_text};
use units::Row;

// Bytes enough for any text.
pub const GREATEST_TEXT: usize = 62 + 22 * GREATEST_ROWS;

// Puts the line `ROW OFFSET`.
fn put_row(text: &mut [u8], at: usize, row: Row, offset: u32) -> usize
    requires { Room text.old at (row_line row.0 offset) }
    ensures { Put text.old text.new at result (row_line row.0 offset) }
{
    let after_row = put_number(text, at, b"", row.0 as u64);
    let after_offset = put_number(text, after_row, b" ", offset as u64);
    put_text(text, after_offset, b"\n")
}

// Puts a line for each offset, by rising row. The room is asked for by the greatest length of a line: how wide an offset is shows only once it is read.
fn put_rows(text: &mut [u8], at: usize, offsets: &[i32]) -> usize
    requires { (length offsets.now ≤ greatest_rows) × (at + 22 * length offsets.now ≤ length text.old) }
    ensures { Put text.old text.new at result (row_lines (offset_in offsets.now) (length offsets.now)) }
{
    let mut next = at;
    for row in 0..offsets.len() {
        let offset = words::natural(offsets, row);
        next = put_row(text, next, Row(row), offset);
    }
    next
}

// Puts the line `head NEED` at the start.
fn put_head(text: &mut [u8], need: u64) -> usize
    requires { Room text.old 0 (head_line need) }
    ensures { Put text.old text.new 0 result (head_line need) }
{
    let after_need = put_number(text, 0, b"head ", need);
    put_text(text, after_need, b"\n")
}

// Puts the plan at the start: its need, and the offset of each row.
fn put_plan(text: &mut [u8], need: u64, offsets: &[i32]) -> usize
    requires { has_room (length offsets.now) (length text.old) ≡ true }
    ensures { Put text.old text.new 0 result (plan_text need (offset_in offsets.now) (length offsets.now)) }
{
    let after_head = put_head(text, need);
    put_rows(text, after_head, offsets)
}

// Puts the line `refused N a b need` at the start.
fn put_refusal(text: &mut [u8], answer: Answer) -> usize
    requires { Room text.old 0 (refused_text answer) }
    ensures { Put text.old text.new 0 result (refused_text answer) }
{
    let after_number = put_number(text, 0, b"refused ", answer.number as u64);
    let after_a = put_number(text, after_number, b" ", answer.a as u64);
    let after_b = put_number(text, after_a, b" ", answer.b as u64);
    let after_need = put_number(text, after_b, b" ", answer.need);
    put_text(text, after_need, b"\n")
}

// Whether there is room for any text over so many offsets.
#[tactic(auto, unfolding(crate::specs::Written::has_room))]
fn has_room(offsets: usize, room: usize) -> bool
    ensures { result ≡ has_room offsets room }
{
    (offsets <= GREATEST_ROWS) & (GREATEST_TEXT <= room)
}

// The text of an answer: the plan, with an offset for each row, where it is done, and else the refusal. Gives how many bytes were written; none, and nothing
// changes, where there is no room.
pub fn write_answer(answer: Answer, offsets: &[i32], text: &mut [u8]) -> Option<usize>
    ensures count { result ≡ written_length (has_room (length offsets.now) (length text.old)) (answer_text answer (offset_in offsets.now) (length offsets.now)) }
    ensures bytes { text.new ≡ written_into (has_room (length offsets.now) (length text.old)) (answer_text answer (offset_in offsets.now) (length offsets.now)) text.old }
{
    if !has_room(offsets.len(), text.len()) {
        return None;
    }
    // What an entry point answers is told by its number, as document 01 has it.
    if answer.number == Answer::DONE {
        return Some(put_plan(text, answer.need, offsets));
    }
    Some(put_refusal(text, answer))
}

// The line `bad sheet`; none, and nothing changes, where there is no room.
pub fn write_bad_sheet(text: &mut [u8]) -> Option<usize>
    ensures count { result ≡ written_length (has_room 0 (length text.old)) bad_sheet_text }
    ensures bytes { text.new ≡ written_into (has_room 0 (length text.old)) bad_sheet_text text.old }
{
    if !has_room(0, text.len()) {
        return None;
    }
    Some(put_text(text, 0, b"bad sheet\n"))
}
