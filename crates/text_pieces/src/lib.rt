// Texts in lent bytes, piece after piece. Each function puts its piece whole where there is room for it, and answers where the next one starts; where there
// is none, nothing changes and the next one starts where this one was to. The text and the place are two parameters: a writer that held both would have
// to say in each contract, here and above, that it still holds the same text.
#![tactic(auto)]

ghost use Rattle.std.specs.Prelude.{◌++◌, ◌≡◌};
ghost use Rattle.decimal_text.specs.Decimal.{decimal};
ghost use Rattle.text_pieces.specs.Put.{Put, Room, has_room, end_with, bytes_with};
ghost use Rattle.text_pieces.specs.Replied.{told_in};

// The text that was told, in the bytes that were lent for it: so many of them, or none where there was no room.
pub fn told(reply: Option<usize>, text: &[u8]) -> &[u8]
    ensures { result.now ≡ told_in reply text.now }
{
    match reply {
        Some(count) => text.get(..count).unwrap_or(text),
        None => &text[..0],
    }
}

// Whether so many bytes have room for a piece of a length at a place, which may be any.
#[tactic(auto, unfolding(crate::specs::Put::has_room))]
fn has_room(bytes: usize, at: usize, length: usize) -> bool
    ensures { result ≡ has_room bytes at length }
{
    at.checked_add(length).is_some_and(|end| end <= bytes)
}

// Puts the bytes of a piece for which there is room.
fn put_whole(text: &mut [u8], at: usize, piece: &[u8]) -> usize
    requires { Room text.old at piece.now }
    ensures { Put text.old text.new at result piece.now }
{
    let end = at + piece.len();
    text[at..end].copy_from_slice(piece);
    end
}

// Puts the bytes of a piece at a place.
pub fn put_text(text: &mut [u8], at: usize, piece: &[u8]) -> usize
    ensures end { result ≡ end_with text.old at piece.now }
    ensures bytes { text.new ≡ bytes_with text.old at piece.now }
{
    if !has_room(text.len(), at, piece.len()) {
        return at;
    }
    put_whole(text, at, piece)
}

// Puts a number in decimal behind some bytes, such as a blank: both, or neither.
pub fn put_number(text: &mut [u8], at: usize, before: &[u8], number: u64) -> usize
    ensures end { result ≡ end_with text.old at (before.now ++ decimal number) }
    ensures bytes { text.new ≡ bytes_with text.old at (before.now ++ decimal number) }
{
    let mut digits = [0; 20];
    let count = io::decimal(number, &mut digits);
    if !has_room(text.len(), at, before.len() + count) {
        return at;
    }
    let after_bytes = put_whole(text, at, before);
    put_whole(text, after_bytes, &digits[..count])
}
