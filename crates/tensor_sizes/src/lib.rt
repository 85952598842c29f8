// Sizes from shape and type (document 02, order 1): the bytes of a tensor of so many elements. What a shape or a code means beyond its size is not known
// here.
#![tactic(auto)]

ghost use Rattle.std.specs.Prelude.{◌≡◌, min, ◌+◌, ◌*◌, ◌≤◌, ◌<◌};
ghost use Rattle.answer.specs.Refusals.{answer_of};
ghost use Rattle.request_table.specs.Limits.{greatest_space};
ghost use Rattle.words.specs.Words.{natural};
ghost use Rattle.tensor_sizes.specs.ByteSize.{elements as elements_of, has_negative, elements_size_of, byte_size_of};

use answer::{Answer, Cause, Refusal};

// At most this many dimensions.
pub const GREATEST_DIMENSIONS: usize = 8;

// The greatest byte size, which is also the greatest size of a row.
const GREATEST_SIZE: u64 = request_table::GREATEST_SPACE as u64;

// One above the greatest size: counting goes no further.
const TOO_LARGE: u64 = GREATEST_SIZE + 1;

// Whether a dimension is below 0.
fn has_negative(shape: &[i32]) -> bool
    ensures { result ≡ has_negative shape.now }
{
    shape.iter().any(|dimension| *dimension < 0)
}

// So many times a dimension, but no more than is too large anyway. A dimension of 0 brings any count back to 0, and one below 0 is as the greatest.
fn times(elements: u64, dimension: i32) -> u64
    ensures { result ≡ min (elements * natural dimension) (greatest_space + 1) }
{
    let dimension = u32::try_from(dimension).unwrap_or(u32::MAX);
    let product = elements.saturating_mul(u64::from(dimension));
    product.min(TOO_LARGE)
}

// The product of the dimensions, but no more than is too large anyway, so that nothing wraps.
fn elements(shape: &[i32]) -> u64
    ensures { result ≡ min (elements_of shape.now) (greatest_space + 1) }
{
    shape
        .iter()
        .fold(1, |elements, dimension| times(elements, *dimension))
}

// The checks 5 and 7: a dimension below 0, which names no row here, and the byte size, which is not told where it is too large.
fn size_of(shape: &[i32], bytes: u64) -> Result<u64, Refusal>
    requires { (0 < bytes) × (bytes ≤ 16) }
    ensures { answer_of result ≡ elements_size_of shape.now bytes }
{
    let negative = has_negative(shape);
    let size = elements(shape) * bytes;
    let too_large = GREATEST_SIZE < size;
    if negative {
        return Err(Refusal::of(Cause::BadRow));
    }
    if too_large {
        return Err(Refusal::of(Cause::NeedExceedsSpace));
    }
    Ok(size)
}

// Document 02's byte size, or its refusal: 2, 24, 5, 7, in that order. The match is the document's own list of codes. An enum of the types, under the names
// that the law `Element` gives them, would put twelve arms that find a type and five that size it in place of these six.
pub fn try_byte_size(dimensions: &[i32], type_code: i32) -> Result<u64, Refusal>
    ensures { answer_of result ≡ byte_size_of dimensions.now type_code }
{
    if GREATEST_DIMENSIONS < dimensions.len() {
        return Err(Refusal::of(Cause::TooMany));
    }
    let element_bytes = match type_code {
        0 | 2 => 4,
        1 | 7 => 2,
        3 | 6 | 9 => 1,
        4 | 8 | 10 | 12 => 8,
        11 => 16,
        _ => return Err(Refusal::of(Cause::BadTypeCode)),
    };
    size_of(dimensions, element_bytes)
}

// The byte size as an answer, carried as the need. Refused: 2, 24, 5, 7, in that order.
pub fn byte_size(dimensions: &[i32], type_code: i32) -> Answer
    ensures { result ≡ byte_size_of dimensions.now type_code }
{
    Answer::from(try_byte_size(dimensions, type_code))
}
