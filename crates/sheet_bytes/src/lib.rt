// The request sheet's bytes (document 01, "The request sheet"; document 02, order 1, for version 2) as a table of requests or of shapes, and a space. What
// is made of them is not known here.
#![tactic(auto)]

ghost use Rattle.std.specs.Prelude.{◌≤◌, ◌++◌, ◌≡◌, length, drop};
ghost use Rattle.word_lists.specs.WordLists.{words_from};
ghost use Rattle.sheet_rule.specs.Sheet.{marked, row_words, well_formed, sheet_of, words_read};

use request_table::{GREATEST_ROWS, ROW_WORDS};
use shape_rule::SHAPE_WORDS;
use sheet_rule::Sheet;
use word_lists::WORD_BYTES;

// Where the parts of the head stand, behind the mark's three bytes.
const VERSION_PLACE: usize = 3;

const ROWS_PLACE: usize = 5;

const SPACE_PLACE: usize = 7;
// The head has this many bytes.
const HEAD_BYTES: usize = 11;
// The version whose rows are requests, and the one whose rows are shapes.
const REQUEST_VERSION: u16 = 1;

const SHAPE_VERSION: u16 = 2;
// The words of the longest table.
pub const SHEET_WORDS: usize = GREATEST_ROWS * SHAPE_WORDS;
// No sheet has more bytes than this.
pub const GREATEST_SHEET: usize = HEAD_BYTES + SHEET_WORDS * WORD_BYTES;

// Whether the sheet starts with the mark ARN.
fn is_marked(sheet: &[u8]) -> bool
    ensures { result ≡ marked sheet.now }
{
    sheet.starts_with(b"ARN")
}

// How many words a row has. A version that there is not has 0, which is no number of words of a form: `row_words` and `well_formed` of `sheet_rule` say so,
// and an option would only be turned into that 0 for them.
#[tactic(auto, using(sheet_rule::proofs::GoodSheets::request_words, sheet_rule::proofs::GoodSheets::shape_words, sheet_rule::proofs::GoodSheets::no_words))]
fn row_words(version: u16) -> usize
    ensures { result ≡ row_words version }
{
    match version {
        REQUEST_VERSION => ROW_WORDS,
        SHAPE_VERSION => SHAPE_WORDS,
        _ => 0,
    }
}

// Whether mark, version and length are right.
fn is_well_formed(sheet: &[u8]) -> bool
    ensures { result ≡ well_formed sheet.now }
{
    let length = sheet.len();
    let words = row_words(word_bytes::unsigned16(sheet, VERSION_PLACE));
    let rows = word_bytes::unsigned16(sheet, ROWS_PLACE) as usize;
    let headed = is_marked(sheet) & (words != 0);
    let whole = length == HEAD_BYTES + rows * words * WORD_BYTES;
    headed & (whole & (length <= HEAD_BYTES + GREATEST_ROWS * words * WORD_BYTES))
}

// Puts so many words, those behind the head, into the first entries of a table.
fn read_rows(sheet: &[u8], count: usize, words: &mut [i32])
    requires { (11 ≤ length sheet.now) × (count ≤ length words.old) }
    ensures { words.new ≡ words_from sheet.now 11 count ++ drop count words.old }
{
    word_lists::read_words(&sheet[HEAD_BYTES..], &mut words[..count]);
}

// Reads a sheet: the rows' words stand in the first entries of `words`, and the rest stays; a bad sheet changes nothing.
pub fn read(sheet: &[u8], words: &mut [i32; SHEET_WORDS]) -> Option<Sheet>
    ensures sheet { result ≡ sheet_of sheet.now }
    ensures table { words.new ≡ words_read sheet.now words.old }
{
    if !is_well_formed(sheet) {
        return None;
    }
    let version = word_bytes::unsigned16(sheet, VERSION_PLACE);
    let rows = word_bytes::unsigned16(sheet, ROWS_PLACE) as usize;
    let count = rows * row_words(version);
    let space = word_bytes::unsigned32(sheet, SPACE_PLACE);
    read_rows(sheet, count, words);
    if version == REQUEST_VERSION {
        return Some(Sheet::Requests(count, space));
    }
    Some(Sheet::Shapes(count, space))
}
