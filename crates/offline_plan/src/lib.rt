// The offline plan's words (document 01): signed little-endian words in a model's metadata, version, number of subgraphs, n, then n offsets. The first two
// are ignored on reading and written as 1 and 1; any offset word is handed on as it stands.
#![tactic(auto)]

ghost use Rattle.std.specs.Prelude.{◌≡◌, length};
ghost use Rattle.answer.specs.Refusals.{verdict_of};
ghost use Rattle.word_lists.specs.WordLists.{with_words};
ghost use Rattle.offline_rule.specs.Answers.{Writable};
ghost use Rattle.offline_rule.specs.OfflinePlan.{read_of, offsets_read, plan_words, write_of, bytes_written};

use answer::{Answer, Cause, Refusal};
use offline_checks::OFFSETS_PLACE;
use request_table::GREATEST_ROWS;
use word_lists::WORD_BYTES;

// The first two words as they are written.
const VERSION: i32 = 1;

const SUBGRAPHS: i32 = 1;

// The work of `read`: nothing changes where a check refuses.
fn read_plan(bytes: &[u8], tensors: u32, offsets: &mut [i32]) -> Result<(), Refusal>
    ensures answer { verdict_of result ≡ read_of bytes.now tensors (length offsets.old) }
    ensures table { offsets.new ≡ offsets_read bytes.now tensors offsets.old }
{
    offline_checks::check(bytes, tensors, offsets.len())?;
    let count = tensors as usize;
    word_lists::read_words(&bytes[OFFSETS_PLACE..], &mut offsets[..count]);
    Ok(())
}

// Reads a plan for so many tensors. Refused: 18, 19, 18, 2, 3, in that order, and nothing changes; done: all zeros, and the plan's offsets stand in the
// first entries of `offsets`.
pub fn read(bytes: &[u8], tensors: u32, offsets: &mut [i32]) -> Answer
    ensures answer { result ≡ read_of bytes.now tensors (length offsets.old) }
    ensures table { offsets.new ≡ offsets_read bytes.now tensors offsets.old }
{
    Answer::from(read_plan(bytes, tensors, offsets))
}

// The answer of writing, before anything is put.
#[tactic(auto, unfolding(offline_rule::specs::OfflinePlan::write_of))]
fn check_written(offsets: &[i32], room: usize) -> Result<(), Refusal>
    ensures { verdict_of result ≡ write_of offsets.now room }
{
    let count = offsets.len();
    if GREATEST_ROWS < count {
        return Err(Refusal::of(Cause::TooMany));
    }
    if room < OFFSETS_PLACE + count * WORD_BYTES {
        return Err(Refusal::of(Cause::TableTooShort));
    }
    Ok(())
}

// Puts the plan's words: the head of three, then the offsets.
fn put_plan(offsets: &[i32], bytes: &mut [u8])
    requires { Writable offsets.now (length bytes.old) }
    ensures { bytes.new ≡ with_words bytes.old 0 (plan_words offsets.now) }
{
    let head = [VERSION, SUBGRAPHS, offsets.len() as i32];
    word_lists::write_words(&head, bytes);
    word_lists::write_words(offsets, &mut bytes[OFFSETS_PLACE..]);
}

// The work of `write`: nothing changes where a check refuses.
fn write_plan(offsets: &[i32], bytes: &mut [u8]) -> Result<(), Refusal>
    ensures answer { verdict_of result ≡ write_of offsets.now (length bytes.old) }
    ensures bytes { bytes.new ≡ bytes_written offsets.now bytes.old }
{
    check_written(offsets, bytes.len())?;
    put_plan(offsets, bytes);
    Ok(())
}

// Writes a plan of these offsets. Refused: 2, 3, in that order, and nothing changes; done: all zeros, and the first 12 + 4n of `bytes` are the plan.
pub fn write(offsets: &[i32], bytes: &mut [u8]) -> Answer
    ensures answer { result ≡ write_of offsets.now (length bytes.old) }
    ensures bytes { bytes.new ≡ bytes_written offsets.now bytes.old }
{
    Answer::from(write_plan(offsets, bytes))
}
