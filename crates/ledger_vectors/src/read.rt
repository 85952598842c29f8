// Numbers in a text, with anything between them. `#` starts a comment, up to the end of its line.
ghost use Rattle.std.specs.Prelude.{length};
ghost use Rattle.std.specs.Io.{ReadsAtMost};
ghost use Rattle.std.specs.Iterator.{at_most};

use recording_rule::{Ledger, RecordedAllocation};
use std::io;
use std::io::Read;

// Reads until the buffer is full or the input ends, and returns how many bytes stand at the buffer's start. Each program that reads has this for itself: what
// comes of reading is no equation, and every public function of a library has one. The loop goes by what was read.
pub(crate) fn read_full(reader: &mut impl Read, buffer: &mut [u8]) -> io::Result<usize>
    ensures { ReadsAtMost result buffer.new }
{
    let mut done = 0;
    while done < buffer.len() {
        let count = reader.read(&mut buffer[done..])?;
        if count == 0 {
            break;
        }
        done += count;
    }
    Ok(done)
}

// The numbers of a text, in their order.
#[derive(Clone, Copy)]
pub struct Numbers<'a>(pub &'a [u8]);

// The number that digits spell; 0 where it has more than 32 bits, so that every text is numbers.
fn number(digits: &[u8]) -> u32 {
    decimal_text::natural(digits)
        .and_then(|number| u32::try_from(number).ok())
        .unwrap_or(0)
}

impl Iterator for Numbers<'_> {
    type Item = u32;

    ghost remaining = { λ s. at_most (length s.0.now) };

    fn next(&mut self) -> Option<u32> {
        // what is left begins outside of comments, since no number stands in one
        let mut comment = false;
        let start = self.0.iter().position(|byte| {
            match byte {
                b'#' => comment = true,
                b'\n' => comment = false,
                _ => {}
            }
            !comment && byte.is_ascii_digit()
        })?;
        let rest = &self.0[start..];
        let others = &rest[1..];
        let further = others
            .iter()
            .position(|byte| !byte.is_ascii_digit())
            .unwrap_or(others.len());
        self.0 = &others[further..];
        Some(number(&rest[..=further]))
    }
}

// The next vector of the numbers, if they have one more.
pub(crate) fn vector<const N: usize>(numbers: &mut Numbers<'_>) -> Option<[u32; N]> {
    let mut vector = arrays::filled(0);
    for number in &mut vector {
        *number = numbers.next()?;
    }
    Some(vector)
}

// The ledger of a vector, of which each kind has three numbers.
pub(crate) fn ledger(numbers: &[u32]) -> Ledger {
    let mut ledger = ledger_entries::empty_ledger();
    let (kinds, _) = numbers.as_chunks::<3>();
    for (kind, [requested, used, count]) in ledger.kinds.iter_mut().zip(kinds) {
        *kind = RecordedAllocation {
            requested: *requested,
            used: *used,
            count: *count,
        };
    }
    ledger
}
