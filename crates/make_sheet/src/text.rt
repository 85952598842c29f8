// Lines of a text, their words, and what they say.
ghost use Rattle.std.specs.Prelude.{length};
ghost use Rattle.std.specs.Iterator.{at_most};

use crate::refusal::Reason;
use crate::rows;
use crate::rows::Row;

// The words of a line: what stands between blanks and tabs. It is a type of its own, since the words of a line are counted and then read once more, so that
// they must be copied.
#[derive(Clone, Copy)]
pub struct Words<'a>(&'a [u8]);

fn is_blank(byte: u8) -> bool {
    matches!(byte, b' ' | b'\t')
}

impl<'a> Iterator for Words<'a> {
    type Item = &'a [u8];

    ghost remaining = { λ s. at_most (length s.0.now) };

    fn next(&mut self) -> Option<&'a [u8]> {
        let start = self.0.iter().position(|byte| !is_blank(*byte))?;
        let rest = &self.0[start..];
        match rest.iter().position(|byte| is_blank(*byte)) {
            Some(end) => {
                self.0 = &rest[end + 1..];
                Some(&rest[..end])
            }
            None => {
                self.0 = &[];
                Some(rest)
            }
        }
    }
}

// What a line adds to a sheet.
#[derive(Clone, Copy)]
pub enum Entry {
    Space(u32),
    Row(Row),
}

// The line without its end and its comment. A carriage return belongs to the line's end only before a line feed: elsewhere it is a byte like any other,
// and no number has one.
fn content(line: &[u8]) -> &[u8] {
    let line = line
        .strip_suffix(b"\r\n")
        .or(line.strip_suffix(b"\n"))
        .unwrap_or(line);
    line.split(|byte| *byte == b'#').next().unwrap_or(line)
}

// The number behind the word `space`, with nothing after it.
fn space(mut words: Words<'_>) -> Option<u32> {
    let number = decimal_text::natural(words.next()?)?;
    if words.next().is_some() {
        return None;
    }
    u32::try_from(number).ok()
}

// What a line says. One that has no words says nothing.
pub(crate) fn entry_of(line: &[u8]) -> Result<Option<Entry>, Reason> {
    let words = Words(content(line));
    let mut others = words;
    let entry = match others.next() {
        None => return Ok(None),
        Some(b"space") => Entry::Space(space(others).ok_or(Reason::NotSpace)?),
        Some(b"shape") => Entry::Row(rows::shape(others).ok_or(Reason::NotShape)?),
        Some(_) => Entry::Row(rows::size(words).ok_or(Reason::NotRow)?),
    };
    Ok(Some(entry))
}
