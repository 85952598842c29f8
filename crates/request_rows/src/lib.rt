// The rows of the request table (document 01, "Requests and the greedy rule"): a row from its words, whether it is good, the lowest that is not. All is
// total: any table, any row, any grid.
#![tactic(auto)]

ghost use Rattle.std.specs.Prelude.{◌<◌, ◌≡◌};
ghost use Rattle.bounded.specs.First.{found_in};
ghost use Rattle.units.specs.Numbered.{row_of};
ghost use Rattle.std.specs.Option.{option_map};
ghost use Rattle.words.specs.Words.{word_at};
ghost use Rattle.request_table.specs.Buffers.{buffer_at};
ghost use Rattle.request_table.specs.Table.{rows as rows_of, word as word_of, fixed_at, passes, request, good, bad_row};

use request_table::{Buffer, GREATEST_SPACE, ROW_WORDS, Request};
use units::{Moment, Offset, Row};

// The last moment that a row may name.
pub const LAST_MOMENT: u32 = 65535;

// Where the word of a column stands. A row past the table gives a place past it too, where every word reads as 0. Both places are worked out alike, so
// that the row is compared with the table once for all its columns.
fn place_of(table: &[i32], row: Row, column: usize) -> usize
    requires { column < 4 }
    ensures { word_at table.now result ≡ word_of table.now row.0 column }
{
    if row.0 < table.len() {
        return row.0 * ROW_WORDS + column;
    }
    table.len() * ROW_WORDS + column
}

// The offset that the word at a place fixes; −1 fixes none.
fn fixed_at(table: &[i32], at: usize) -> Option<Offset>
    ensures { result ≡ fixed_at (word_at table.now at) }
{
    if words::is_minus_one(table, at) {
        return None;
    }
    Some(Offset(words::natural(table, at) as u64))
}

// The row of the table; past its end, a row of zeros.
pub fn request_at(table: &[i32], row: Row) -> Request
    ensures { result ≡ request table.now row.0 }
{
    let size = words::natural(table, place_of(table, row, 0));
    let first = words::natural(table, place_of(table, row, 1));
    let last = words::natural(table, place_of(table, row, 2));
    let at = place_of(table, row, 3);
    let offset = fixed_at(table, at);
    Request {
        size,
        first: Moment(first),
        last: Moment(last),
        offset,
    }
}

// An offset that a good row may be fixed at, or none.
fn is_good_offset(grid: u32, offset: Option<Offset>) -> bool
    ensures { result ≡ passes grid offset }
{
    match offset {
        Some(offset) => buffers::on_grid(grid, offset) & (offset.0 <= GREATEST_SPACE as u64),
        None => true,
    }
}

// A good row: size, life and offset are in their ranges.
fn is_good(grid: u32, request: Request) -> bool
    ensures { result ≡ good grid request }
{
    let size = request.size <= GREATEST_SPACE;
    let life = (request.first.0 <= request.last.0) & (request.last.0 <= LAST_MOMENT);
    size & (life & is_good_offset(grid, request.offset))
}

// A request table as whoever plans or judges reads it: its words, and the grid that lengths and offsets go by. The bound on the rows is no invariant of it:
// a table of any length is read, and one that is too long is refused by number 2.
#[derive(Clone, Copy)]
pub struct Table<'a> {
    pub grid: u32,
    pub words: &'a [i32],
}

impl<'a> Table<'a> {
    // How many rows it has.
    pub fn rows(&self) -> usize
        ensures { result ≡ rows_of self.now.words.now }
    {
        self.words.len() / ROW_WORDS
    }

    // The row of that number; past the end, a row of zeros.
    pub fn request(&self, row: Row) -> Request
        ensures { result ≡ request self.now.words.now row.0 }
    {
        request_at(self.words, row)
    }

    // The row's buffer at an offset.
    pub fn buffer(&self, row: Row, offset: Offset) -> Buffer
        ensures { result ≡ buffer_at self.now.grid self.now.words.now row.0 offset.0 }
    {
        buffers::buffer_at(self.grid, self.request(row), offset)
    }

    // The lowest row that is not good, if there is one.
    pub fn lowest_bad_row(&self) -> Option<Row>
        ensures { result ≡ option_map row_of (found_in (bad_row self.now.grid self.now.words.now) 0 (rows_of self.now.words.now)) }
    {
        (0..self.rows())
            .find(|row| !is_good(self.grid, self.request(Row(*row))))
            .map(Row)
    }
}
