// A proposed plan, row by row (document 01, "The desk's order of checks"): the offset of a row, the lowest fixed row that was moved and the lowest row
// whose offset is off the grid. All is total: any table, any proposal, any row, any grid.
#![tactic(auto)]

ghost use Rattle.std.specs.Prelude.{◌<◌, ◌^◌, ◌≡◌};
ghost use Rattle.std.specs.Option.{option_map};
ghost use Rattle.bounded.specs.First.{found_in};
ghost use Rattle.units.specs.Numbered.{row_of};
ghost use Rattle.request_table.specs.Buffers.{buffer_at};
ghost use Rattle.request_table.specs.Table.{rows as rows_of};
ghost use Rattle.inspection_rule.specs.Inspect.{proposed, moved, off_grid};

use request_rows::Table;
use request_table::Buffer;
use units::{Offset, Row};

// The offset that is proposed for a row. A negative one stands above every limit, and past the proposal it is 0. It is a number of 32 bits, so that no
// end of a row is too large for 64.
pub fn proposed_at(offsets: &[i32], row: Row) -> Offset
    ensures offset { result.0 ≡ proposed offsets.now row.0 }
    ensures small { result.0 < 2 ^ 32 }
{
    let place = words::natural(offsets, row.0) as u64;
    Offset(place)
}

// Whether the proposed offset is negative or not a multiple of the grid.
#[tactic(auto, unfolding(inspection_rule::specs::Inspect::off_grid))]
fn is_off_grid(grid: u32, offsets: &[i32], row: Row) -> bool
    ensures { result ≡ off_grid grid offsets.now row.0 }
{
    words::is_negative(offsets, row.0) | !buffers::on_grid(grid, proposed_at(offsets, row))
}

// The lowest of so many rows with such an offset, if there is one.
pub fn lowest_off_grid(grid: u32, offsets: &[i32], count: usize) -> Option<Row>
    ensures { result ≡ option_map row_of (found_in (off_grid grid offsets.now) 0 count) }
{
    (0..count)
        .find(|row| is_off_grid(grid, offsets, Row(*row)))
        .map(Row)
}

// A proposed plan as whoever judges it reads it: the request table, and an offset for each of its rows.
#[derive(Clone, Copy)]
pub struct Proposal<'a> {
    pub table: Table<'a>,
    pub offsets: &'a [i32],
}

impl<'a> Proposal<'a> {
    // The row's offset.
    pub fn offset(&self, row: Row) -> Offset
        ensures offset { result.0 ≡ proposed self.now.offsets.now row.0 }
        ensures small { result.0 < 2 ^ 32 }
    {
        proposed_at(self.offsets, row)
    }

    // The row's buffer at its offset.
    pub fn buffer(&self, row: Row) -> Buffer
        ensures { result ≡ buffer_at self.now.table.grid self.now.table.words.now row.0 (proposed self.now.offsets.now row.0) }
    {
        self.table.buffer(row, self.offset(row))
    }

    // Whether the row is fixed and was moved.
    #[tactic(auto, unfolding(inspection_rule::specs::Inspect::moved))]
    fn is_moved(&self, row: Row) -> bool
        ensures { result ≡ moved self.now.table.words.now self.now.offsets.now row.0 }
    {
        let request = self.table.request(row);
        match request.offset {
            Some(own) => self.offset(row) != own,
            None => false,
        }
    }

    // The lowest fixed row that was moved, if there is one.
    pub fn lowest_moved(&self) -> Option<Row>
        ensures { result ≡ option_map row_of (found_in (moved self.now.table.words.now self.now.offsets.now) 0 (rows_of self.now.table.words.now)) }
    {
        (0..self.table.rows())
            .find(|row| self.is_moved(Row(*row)))
            .map(Row)
    }

    // The lowest row whose offset is negative or not a multiple of the grid, if there is one.
    pub fn lowest_off_grid(&self) -> Option<Row>
        ensures { result ≡ option_map row_of (found_in (off_grid self.now.table.grid self.now.offsets.now) 0 (rows_of self.now.table.words.now)) }
    {
        lowest_off_grid(self.table.grid, self.offsets, self.table.rows())
    }
}
