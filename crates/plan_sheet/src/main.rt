// Plans a request sheet: standard input to standard output. All that matters is in `request_sheet`.
#![tactic(auto)]

ghost use Rattle.std.specs.Io.{ReadsAtMost};

use request_sheet::{GREATEST_SHEET, GREATEST_TEXT};
use std::io;
use std::io::Read;

// One byte more than the longest sheet has, so that a longer input is seen to be longer.
const INPUT_BYTES: usize = GREATEST_SHEET + 1;

// Writes the reply to a sheet.
fn answer(rt: &impl Print, sheet: &[u8]) -> io::Result<()> {
    let mut text = arrays::filled::<u8, GREATEST_TEXT>(0);
    let reply = request_sheet::reply(sheet, &mut text);
    rt.write_all(text_pieces::told(reply, &text))
}

// Reads until the buffer is full or the input ends, and returns how many bytes stand at the buffer's start. Each program that reads has this for itself: what
// comes of reading is no equation, and every public function of a library has one. The loop goes by what was read.
fn read_full(reader: &mut impl Read, buffer: &mut [u8]) -> io::Result<usize>
    ensures { ReadsAtMost result buffer.new }
{
    let mut done = 0;
    while done < buffer.len() {
        let count = reader.read(&mut buffer[done..])?;
        if count == 0 {
            break;
        }
        done += count;
    }
    Ok(done)
}

fn main(rt: HostRuntime) -> io::Result<()> {
    let mut input = arrays::filled::<u8, INPUT_BYTES>(0);
    let length = read_full(&mut rt.stdin(), &mut input)?;
    answer(&rt, &input[..length])
}
