// Runs the ledger's vectors. Standard input has them as numbers, 26 to a vector: head, temp, tail and usable; requested, used and count of each of the six
// kinds; kind, size and alignment; and the room for the ledger's text. Of each the answer and the sections are written, and then the ledger's text or `no
// room`, so that no expected value stands in the program.
#![tactic(auto)]

mod read;

use arena_sections::Sections;
use read::Numbers;
use recording_rule::{Ledger, Recording};
use std::io;

// A vector has this many numbers.
const VECTOR_NUMBERS: usize = 26;

// The most room that a vector may give.
const GREATEST_ROOM: usize = 300;

// The most bytes of input that are read.
const INPUT_BYTES: usize = 65536;

// The answer and the sections, in a line. The libraries print nothing, so that their types have no `Display`.
fn print_outcome(rt: &impl Print, recording: Recording) -> io::Result<()> {
    let answer = recording.answer;
    let sections = recording.sections;
    println!(rt;
        "{} {} {} {}; sections {} {} {} {}",
        answer.number,
        answer.a,
        answer.b,
        answer.need,
        sections.head,
        sections.temp,
        sections.tail,
        sections.usable
    )
}

// The ledger's text in lent bytes, all of which are written, so that those behind the text are seen to stay.
fn print_ledger(rt: &impl Print, ledger: Ledger, text: &mut [u8]) -> io::Result<()> {
    if ledger_text::write_ledger(ledger, text).is_none() {
        rt.write_all(b"no room\n")?;
    }
    rt.write_all(text)?;
    rt.write_all(b"\n")
}

fn run(rt: &impl Print, vector: &[u32; VECTOR_NUMBERS]) -> io::Result<()> {
    let [head, temp, tail, usable, .., kind, size, alignment, room] = *vector;
    let sections = Sections {
        head,
        temp,
        tail,
        usable,
    };
    // cut by its places, since the borrow checker does not cover a pattern that gives the middle of an array a name
    let ledger = read::ledger(&vector[4..VECTOR_NUMBERS - 4]);
    let recording = arena_recording::allocate_persistent(sections, ledger, kind, size, alignment);
    print_outcome(rt, recording)?;
    // bytes to lend, of which none is a digit
    let mut lent = arrays::filled::<u8, GREATEST_ROOM>(b'.');
    match lent.get_mut(..room as usize) {
        Some(text) => print_ledger(rt, recording.ledger, text),
        None => Ok(()),
    }
}

fn main(rt: HostRuntime) -> io::Result<()> {
    let mut input = arrays::filled::<u8, INPUT_BYTES>(0);
    let length = read::read_full(&mut rt.stdin(), &mut input)?;
    let mut numbers = Numbers(&input[..length]);
    // more turns than there are vectors, since a number takes a byte at least
    for _ in 0..length {
        let Some(vector) = read::vector(&mut numbers) else {
            break;
        };
        run(&rt, &vector)?;
    }
    Ok(())
}
