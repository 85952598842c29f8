// A request table from a table of shapes (document 02, order 1): thirteen words a row, type code, number of dimensions, eight dimensions, first, last and
// offset. Each row's size is its shape's; its first, last and offset are taken as they are, and judged by whoever plans the requests.
#![tactic(auto)]

ghost use Rattle.std.specs.Prelude.{◌*◌, ◌/◌, ◌%◌, ◌≤◌, ◌<◌, ◌≡◌, length};
ghost use Rattle.answer.specs.Refusals.{answer_of, verdict_of};
ghost use Rattle.bounded.specs.Replaced.{replaced};
ghost use Rattle.request_table.specs.Limits.{greatest_rows};
ghost use Rattle.shape_rule.specs.ShapeTable.{shape_count, tensor_size};
ghost use Rattle.shape_rule.specs.Sized.{request_word, request_entry, lengths_of, shapes_of, sized_of, final_requests};

use answer::{Answer, Cause, Refusal};
use request_table::{GREATEST_ROWS, ROW_WORDS};
use shape_rule::SHAPE_WORDS;
use tensor_sizes::GREATEST_DIMENSIONS;
use units::Row;

// Where the number of dimensions and the first of them stand in a row.
const COUNT_COLUMN: usize = 1;

const DIMENSIONS_COLUMN: usize = 2;
// First, last and offset stand so many columns further on than in a request.
const COLUMNS_ON: usize = SHAPE_WORDS - ROW_WORDS;

// The byte size of a row's tensor, or its refusal.
fn size_of_row(shapes: &[i32], row: Row) -> Result<u64, Refusal>
    requires { row.0 < shape_count shapes.now }
    ensures { answer_of result ≡ tensor_size shapes.now row.0 }
{
    let start = row.0 * SHAPE_WORDS;
    let count = words::natural(shapes, start + COUNT_COLUMN) as usize;
    if GREATEST_DIMENSIONS < count {
        return Err(Refusal::of(Cause::TooMany));
    }
    let first = start + DIMENSIONS_COLUMN;
    let end = first + count;
    let code = shapes[start];
    tensor_sizes::try_byte_size(&shapes[first..end], code)
}

// The first bad shape, told by its own number with its row; done where there is none.
fn judge(shapes: &[i32]) -> Result<(), Refusal>
    requires { shape_count shapes.now ≤ greatest_rows }
    ensures { verdict_of result ≡ shapes_of shapes.now }
{
    for row in 0..shapes.len() / SHAPE_WORDS {
        size_of_row(shapes, Row(row)).map_err(|refusal| Refusal::at(refusal.cause, row as u32))?;
    }
    Ok(())
}

// The entry of that number in the request table. The size of a bad shape stands as 0, the need that its refusal carries.
fn request_entry(shapes: &[i32], entry: usize) -> i32
    requires { entry < shape_count shapes.now * 4 }
    ensures { result ≡ request_word shapes.now (entry / 4) (entry % 4) }
{
    let row = Row(entry / ROW_WORDS);
    let column = entry % ROW_WORDS;
    if column == 0 {
        return size_of_row(shapes, row).unwrap_or(0) as i32;
    }
    shapes[row.0 * SHAPE_WORDS + COLUMNS_ON + column]
}

// Stores the requests of all rows in the first entries of the table.
fn store(shapes: &[i32], requests: &mut [i32])
    requires { (shape_count shapes.now ≤ greatest_rows) × (shape_count shapes.now * 4 ≤ length requests.old) }
    ensures { requests.new ≡ replaced (request_entry shapes.now) (shape_count shapes.now * 4) requests.old }
{
    let entries = shapes.len() / SHAPE_WORDS * ROW_WORDS;
    for (entry, word) in requests[..entries].iter_mut().enumerate() {
        *word = request_entry(shapes, entry);
    }
}

// The checks 1 to 3: the tables' lengths.
#[tactic(auto, unfolding(length_checks::specs::LengthChecks::lengths_of, shape_rule::specs::Sized::lengths_of))]
fn check_lengths(shapes: &[i32], room: usize) -> Result<(), Refusal>
    ensures { verdict_of result ≡ lengths_of shapes.now room }
{
    let n = shapes.len() / SHAPE_WORDS;
    let ragged = shapes.len() % SHAPE_WORDS != 0;
    length_checks::check(ragged, GREATEST_ROWS < n, room < n * ROW_WORDS)
}

// The checks in their order, then the requests into the table.
fn size_requests(shapes: &[i32], requests: &mut [i32]) -> Result<(), Refusal>
    ensures answer { verdict_of result ≡ sized_of shapes.now (length requests.old) }
    ensures table { requests.new ≡ final_requests shapes.now requests.old }
{
    check_lengths(shapes, requests.len())?;
    judge(shapes)?;
    store(shapes, requests);
    Ok(())
}

// The request table of a shape table. Refused: 1, 2 and 3 for the lengths, then the first bad shape by its own number, with its row, and nothing changes;
// done: all zeros, and the requests in the first entries of `requests`, four each.
pub fn from_shapes(shapes: &[i32], requests: &mut [i32]) -> Answer
    ensures answer { result ≡ sized_of shapes.now (length requests.old) }
    ensures table { requests.new ≡ final_requests shapes.now requests.old }
{
    Answer::from(size_requests(shapes, requests))
}
