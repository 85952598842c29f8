// Makes a request sheet of a text. A line of it is `space N` or a row, and `#` starts a comment. The rows are all `size first last offset`, which gives a
// sheet of version 1, or all `shape code first last offset dimension ..`, with up to eight dimensions, which gives one of version 2. The sheet goes to
// standard output; for a text that is none, one line goes there that tells what is wrong and where. What the numbers mean is left to the planner.
#![tactic(auto)]

ghost use Rattle.std.specs.Io.{ReadsAtMost};

use refusal::Reason;
use sheet::{Progress, Rows, Sheet};
use std::io;
use std::io::Read;

mod refusal;
mod rows;
mod sheet;
mod text;

// Bytes enough for the longest line of a row, with some for a comment, as often as a sheet may have rows.
const INPUT_BYTES: usize = 160 * request_table::GREATEST_ROWS;

// With one byte more, so that a text that is too long is seen.
const BUFFER_BYTES: usize = INPUT_BYTES + 1;

// The sheet of the text, or the first reason against one and the number of its line, the first being line 1. Even the empty text has a line, so that there
// is one to name. Of a text that is too long the last line is not read: it may be cut, and might pass for another.
fn make<'a>(rows: &'a mut Rows, input: &[u8]) -> Result<Sheet<'a>, (usize, Reason)> {
    let text = &input[..input.len().min(INPUT_BYTES)];
    let too_long = text.len() < input.len();
    let mut progress = Progress::new(rows);
    // the bytes behind the line
    let mut left = text.len();
    let mut last = 1;
    for (number, line) in (1..=INPUT_BYTES).zip(text.split_inclusive(|byte| *byte == b'\n')) {
        left = left.saturating_sub(line.len());
        if too_long && left == 0 {
            return Err((number, Reason::TooLong));
        }
        progress.add_line(line).map_err(|reason| (number, reason))?;
        last = number;
    }
    progress.finish().map_err(|reason| (last, reason))
}

// Reads until the buffer is full or the input ends, and returns how many bytes stand at the buffer's start. Each program that reads has this for itself: what
// comes of reading is no equation, and every public function of a library has one. The loop goes by what was read.
fn read_full(reader: &mut impl Read, buffer: &mut [u8]) -> io::Result<usize>
    ensures { ReadsAtMost result buffer.new }
{
    let mut done = 0;
    while done < buffer.len() {
        let count = reader.read(&mut buffer[done..])?;
        if count == 0 {
            break;
        }
        done += count;
    }
    Ok(done)
}

// What comes of the input. The text is held no longer than here, so that its sheet is written in the memory that it had.
fn make_of_input<'a>(
    rows: &'a mut Rows,
    reader: &mut impl Read,
) -> io::Result<Result<Sheet<'a>, (usize, Reason)>> {
    let mut input = arrays::filled::<u8, BUFFER_BYTES>(0);
    let length = read_full(reader, &mut input)?;
    Ok(make(rows, &input[..length]))
}

fn main(rt: HostRuntime) -> io::Result<()> {
    let mut rows = Rows::new();
    match make_of_input(&mut rows, &mut rt.stdin())? {
        Ok(sheet) => sheet.write(&rt),
        Err((line, reason)) => println!(rt; "line {line}: {reason}"),
    }
}
