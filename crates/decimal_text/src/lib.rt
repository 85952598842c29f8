// Numbers in decimal, read from text. Every text is allowed: one that spells no number gives none, so that no caller has a text to look at before it
// reads.
#![tactic(auto)]

ghost use Rattle.std.specs.Prelude.{◌≡◌};
ghost use Rattle.decimal_text.specs.Spelled.{natural_in, above_zero, below_zero, signed_in};
ghost use Rattle.decimal_text.specs.DigitByDigit.{with_digit};

// The number with one digit more. None is made with a code that is no digit's, nor one that is the greatest of 64 bits or past it.
#[tactic(auto, using(crate::proofs::DigitByDigit::digit_none), unfolding(crate::specs::DigitByDigit::with_digit, crate::specs::Spelled::held, crate::specs::Spelled::is_digit))]
fn with_digit(number: u64, code: u8) -> Option<u64>
    ensures { result ≡ with_digit number code }
{
    let digit = code.wrapping_sub(b'0');
    if 9 < digit {
        return None;
    }
    number
        .checked_mul(10)?
        .checked_add(digit as u64)
        .filter(|more| *more < u64::MAX)
}

// The number that the text spells by digits alone. Any other text, the empty one too, spells none; nor does one of the greatest number of 64 bits or of
// a number past it.
#[tactic(auto, using(crate::proofs::DigitByDigit::empty_spells_none))]
pub fn natural(text: &[u8]) -> Option<u64>
    ensures { result ≡ natural_in text.now }
{
    if text.is_empty() {
        return None;
    }
    let mut number = 0;
    for code in text {
        number = with_digit(number, *code)?;
    }
    Some(number)
}

// The number of so many above 0, where 32 bits hold it.
#[tactic(auto, unfolding(crate::specs::Spelled::above_zero))]
fn above_zero(magnitude: u64) -> Option<i32>
    ensures { result ≡ above_zero magnitude }
{
    i32::try_from(magnitude).ok()
}

// The number of so many below 0, where 32 bits hold it. It is made from -1 down, since the least has no counterpart above 0.
#[tactic(auto, unfolding(crate::specs::Spelled::below_zero, crate::specs::Spelled::below))]
fn below_zero(magnitude: u64) -> Option<i32>
    ensures { result ≡ below_zero magnitude }
{
    if magnitude == 0 {
        return Some(0);
    }
    i32::try_from(magnitude - 1)
        .ok()
        .map(|further| -1 - further)
}

// The signed number that the text spells, with a minus sign before it or none.
pub fn signed(text: &[u8]) -> Option<i32>
    ensures { result ≡ signed_in text.now }
{
    match text.strip_prefix(b"-") {
        Some(digits) => natural(digits).and_then(below_zero),
        None => natural(text).and_then(above_zero),
    }
}
