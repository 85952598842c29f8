// Words of 32 bits put into little-endian bytes, as `word_bytes` reads them. Every call is allowed: a byte outside the slice is not written, and no place
// is too far on.
#![tactic(auto)]

ghost use Rattle.std.specs.Prelude.{◌≡◌, ◌+◌, set};
ghost use Rattle.word_bytes.specs.Bytes.{unsigned_word, with_word};

// Sets the byte some way ahead of a place. The way is compared with what there is from the place on, as in `word_bytes`; it is compared here, since the
// library's `get_mut` does not say what the slice ends as, so that the contract does not follow from it.
fn put_byte(bytes: &mut [u8], at: usize, ahead: usize, value: u8)
    ensures { bytes.new ≡ set bytes.old (at + ahead) value }
{
    if ahead < bytes.len().saturating_sub(at) {
        bytes[at + ahead] = value;
    }
}

// Sets the four bytes from a place on to the word's.
pub fn put_word(bytes: &mut [u8], at: usize, word: i32)
    ensures { bytes.new ≡ with_word bytes.old at word }
{
    for (ahead, byte) in word.to_le_bytes().iter().enumerate() {
        put_byte(bytes, at, ahead, *byte);
    }
}
