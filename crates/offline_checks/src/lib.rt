// The checks of an offline plan that is to be read (document 01), and where its words stand. All is total: any bytes, any count, any room.
#![tactic(auto)]

ghost use Rattle.std.specs.Prelude.{◌≡◌};
ghost use Rattle.answer.specs.Refusals.{verdict_of};
ghost use Rattle.word_bytes.specs.Bytes.{word_of};
ghost use Rattle.offline_rule.specs.OfflinePlan.{count_place, is_number, read_of};

use answer::{Cause, Refusal};
use request_table::GREATEST_ROWS;
use word_lists::WORD_BYTES;

// Where the third word stands, n.
const COUNT_PLACE: usize = 8;
// Where the offsets start, behind three words.
pub const OFFSETS_PLACE: usize = 12;

// Whether the plan's third word is that count. The two are compared in 64 bits, which hold both, so that no negative word is a count.
#[tactic(auto, using(crate::proofs::Counts::by_number))]
fn is_for(bytes: &[u8], tensors: u32) -> bool
    ensures { result ≡ is_number (word_of bytes.now count_place) tensors }
{
    i64::from(word_bytes::word(bytes, COUNT_PLACE)) == i64::from(tensors)
}

// The answer of reading, before anything is stored. The length is worked in 64 bits, where 12 + 4n fits for every count.
#[tactic(auto, unfolding(offline_rule::specs::OfflinePlan::read_of))]
pub fn check(bytes: &[u8], tensors: u32, room: usize) -> Result<(), Refusal>
    ensures { verdict_of result ≡ read_of bytes.now tensors room }
{
    let count = tensors as usize;
    if bytes.len() < OFFSETS_PLACE {
        return Err(Refusal::of(Cause::WrongLength));
    }
    if !is_for(bytes, tensors) {
        return Err(Refusal::of(Cause::OtherTensorCount));
    }
    if bytes.len() != OFFSETS_PLACE + count * WORD_BYTES {
        return Err(Refusal::of(Cause::WrongLength));
    }
    if GREATEST_ROWS < count {
        return Err(Refusal::of(Cause::TooMany));
    }
    if room < count {
        return Err(Refusal::of(Cause::TableTooShort));
    }
    Ok(())
}
