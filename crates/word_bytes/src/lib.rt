// Little-endian bytes as words of 32 bits. Every call is allowed: a byte outside the slice reads as 0, and no place is too far on, so that no caller has
// a bound to show before it reads.
#![tactic(auto)]

ghost use Rattle.std.specs.Prelude.{◌≡◌, ◌+◌, get_or};
ghost use Rattle.word_bytes.specs.Bytes.{little_endian, signed_word, word_of};

// The byte some way ahead of a place. The way is compared with what there is from the place on, since the sum of the two may not fit, and so that a compiler
// sees that a table of words is one block.
fn byte(bytes: &[u8], at: usize, ahead: usize) -> u8
    ensures { result ≡ get_or bytes.now (at + ahead) 0 }
{
    if ahead < bytes.len().saturating_sub(at) {
        return bytes[at + ahead];
    }
    0
}

// The two bytes from a place on, the lowest first, as an unsigned number.
// This and the next stay two functions: their numbers are of two types, and what they have in common is `byte`.
#[tactic(auto, unfolding(crate::specs::Bytes::little_endian))]
pub fn unsigned16(bytes: &[u8], at: usize) -> u16
    ensures { result ≡ little_endian bytes.now at 2 }
{
    u16::from_le_bytes([byte(bytes, at, 0), byte(bytes, at, 1)])
}

// The four bytes from a place on, the lowest first, as an unsigned number.
#[tactic(auto, unfolding(crate::specs::Bytes::little_endian))]
pub fn unsigned32(bytes: &[u8], at: usize) -> u32
    ensures { result ≡ little_endian bytes.now at 4 }
{
    u32::from_le_bytes([
        byte(bytes, at, 0),
        byte(bytes, at, 1),
        byte(bytes, at, 2),
        byte(bytes, at, 3),
    ])
}

// The signed word in the four bytes from a place on.
#[tactic(auto, using(crate::proofs::Casts::signed_is), unfolding(crate::specs::Bytes::word_of))]
pub fn word(bytes: &[u8], at: usize) -> i32
    ensures { result ≡ word_of bytes.now at }
{
    unsigned32(bytes, at).cast_signed()
}
