// A row at an offset (document 01, "Requests and the greedy rule"): its buffer, the grid, whether two buffers live together and collide. The test for
// living together is one function, for whoever plans or judges a plan; rounding up is `alignment`'s. All is total: any grid, any buffer.
#![tactic(auto)]

ghost use Rattle.std.specs.Prelude.{◌≡◌};
ghost use Rattle.request_table.specs.Table.{on_grid};
ghost use Rattle.request_table.specs.Buffers.{buffer, live_together, ends_after, collides};

use request_table::{Buffer, Request};
use units::Offset;

// Whether the offset is a multiple of the grid.
pub fn on_grid(grid: u32, offset: Offset) -> bool
    ensures { result ≡ on_grid grid offset.0 }
{
    offset.0.is_multiple_of(grid as u64)
}

// The row's buffer at an offset.
pub fn buffer_at(grid: u32, request: Request, offset: Offset) -> Buffer
    ensures { result ≡ buffer grid request offset }
{
    Buffer {
        first: request.first,
        last: request.last,
        offset,
        length: alignment::round_up(grid, request.size),
    }
}

// Both ends of a life count. Both comparisons are made, here and in `collide`, whatever the first says: the inspector asks this of every two rows, and where a
// comparison is cut short a processor guesses one in two of them wrong.
#[tactic(auto, unfolding(request_table::specs::Buffers::live_together))]
pub fn live_together(a: Buffer, b: Buffer) -> bool
    ensures { result ≡ live_together a b }
{
    (a.first <= b.last) & (b.first <= a.last)
}

// Whether a ends after b starts. It subtracts where there is something to subtract, so that no end is ever worked out and none can overflow.
fn ends_after(a: Buffer, b: Buffer) -> bool
    ensures { result ≡ ends_after a b }
{
    b.offset < a.offset || b.offset.0 - a.offset.0 < a.length
}

// Two buffers collide: both are nonempty, they live together and share a byte.
#[tactic(auto, unfolding(request_table::specs::Buffers::collides, request_table::specs::Buffers::share_byte))]
pub fn collide(a: Buffer, b: Buffer) -> bool
    ensures { result ≡ collides a b }
{
    let nonempty = (0 < a.length) & (0 < b.length);
    nonempty & (live_together(a, b) & (ends_after(a, b) & ends_after(b, a)))
}
