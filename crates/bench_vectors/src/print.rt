// What a vector's line says, on standard output.
use answer::Answer;
use arena_sections::Outcome;
use std::fmt::Display;
use std::io;

// The answer's number, its two places and its need. The libraries print nothing, so that their types have no `Display`.
pub(crate) fn answer(rt: &impl Print, answer: Answer) -> io::Result<()> {
    print!(rt;
        " {} {} {} {}",
        answer.number, answer.a, answer.b, answer.need
    )
}

// The answer, and the state that is handed back.
pub(crate) fn outcome(rt: &impl Print, outcome: Outcome) -> io::Result<()> {
    answer(rt, outcome.answer)?;
    let sections = outcome.sections;
    print!(rt;
        "; sections {} {} {} {}",
        sections.head, sections.temp, sections.tail, sections.usable
    )
}

// A heading, and every entry of a table with a space before it, equal neighbours put together; a single one has no `1*`.
pub(crate) fn table<T: Copy + PartialEq + Display>(
    rt: &impl Print,
    heading: &str,
    table: &[T],
) -> io::Result<()> {
    print!(rt; "; {heading}")?;
    for run in table.chunk_by(|one, next| one == next) {
        match run {
            [] => {}
            [entry] => print!(rt; " {entry}")?,
            [entry, ..] => print!(rt; " {}*{entry}", run.len())?,
        }
    }
    Ok(())
}

// What a sheet was replied: how many bytes of text, or that there was no room.
pub(crate) fn reply(rt: &impl Print, reply: Option<usize>) -> io::Result<()> {
    match reply {
        Some(count) => print!(rt; " text {count}"),
        None => print!(rt; " no room"),
    }
}
