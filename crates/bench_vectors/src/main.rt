// Runs the bench's vectors. Standard input has one to a line: the public function's name, what the vector shows, a colon, and the function's tables and
// numbers. Each line's answer goes to standard output, so that a vector is a line here and a line there, and no expected value stands in the program.
#![tactic(auto)]

ghost use Rattle.std.specs.Io.{ReadsAtMost};

use fault::Fault;
use read::{Fields, Tables};
use std::io;
use std::io::Read;

mod calls;
mod fault;
mod print;
mod read;
mod text;

// More bytes than any input may have, so that a longer one is seen to be longer.
const INPUT_BYTES: usize = 65536;

// A vector's line of output. Headings and empty lines have none. The label is all of the line where there is no colon, and starts with the function's name.
fn run_line(rt: &impl Print, line: &[u8], tables: &mut Tables) -> io::Result<()> {
    if matches!(line, [] | [b'#', ..]) {
        return Ok(());
    }
    let (label, body) = text::cut(line, b':');
    let (name, _) = text::cut(label, b' ');
    rt.write_all(label)?;
    rt.print(":")?;
    match calls::call(rt, name, Fields::new(body), tables) {
        Ok(()) => rt.println(""),
        Err(Fault::NotVector) => rt.println(" not a vector"),
        Err(Fault::System(error)) => Err(error),
    }
}

// Reads until the buffer is full or the input ends, and returns how many bytes stand at the buffer's start. Each program that reads has this for itself: what
// comes of reading is no equation, and every public function of a library has one. The loop goes by what was read.
fn read_full(reader: &mut impl Read, buffer: &mut [u8]) -> io::Result<usize>
    ensures { ReadsAtMost result buffer.new }
{
    let mut done = 0;
    while done < buffer.len() {
        let count = reader.read(&mut buffer[done..])?;
        if count == 0 {
            break;
        }
        done += count;
    }
    Ok(done)
}

fn main(rt: HostRuntime) -> io::Result<()> {
    let mut buffer = arrays::filled::<u8, INPUT_BYTES>(0);
    let length = read_full(&mut rt.stdin(), &mut buffer)?;
    if length == INPUT_BYTES {
        return rt.println(": input too long");
    }
    let mut tables = Tables::new();
    for line in buffer[..length].split(|byte| *byte == b'\n') {
        run_line(&rt, line, &mut tables)?;
    }
    Ok(())
}
