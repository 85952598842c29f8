// The need of a plan: the greatest end of a nonempty row.
ghost use Rattle.std.specs.Prelude.{◌≤◌, ◌<◌, ◌^◌, ◌≡◌};
ghost use Rattle.request_table.specs.Buffers.{end, end_or_zero};
ghost use Rattle.request_table.specs.Limits.{greatest_rows};
ghost use Rattle.request_table.specs.Table.{rows as rows_of};
ghost use Rattle.greedy_rule.specs.Plan.{greedy_need};
ghost use Rattle.greedy_planner.specs.Arrays.{GoodRows, HoldsPlan};

use request_rows::Table;
use request_table::{Buffer, GREATEST_ROWS};
use units::{Offset, Row};

// Where a buffer ends; an empty one counts for nothing.
#[tactic(auto, unfolding(request_table::specs::Buffers::end_or_zero))]
fn end_or_zero(buffer: Buffer) -> u64
    requires { end buffer < 2 ^ 62 }
    ensures { result ≡ end_or_zero buffer }
{
    if buffer.length == 0 {
        return 0;
    }
    buffer.offset.0 + buffer.length
}

// The need of the plan that the array holds.
pub(crate) fn need_of(table: &Table, offsets: &[Offset; GREATEST_ROWS]) -> u64
    requires table_bound { (rows_of table.now.words.now ≤ greatest_rows) × (table.now.grid ≤ 2 ^ 24) }
    requires good_rows { GoodRows table.now.grid table.now.words.now }
    requires holds_plan { HoldsPlan table.now.grid table.now.words.now offsets.now }
    ensures { result ≡ greedy_need table.now.grid table.now.words.now }
{
    let mut need: u64 = 0;
    for row in 0..table.rows() {
        need = need.max(end_or_zero(table.buffer(Row(row), offsets[row])));
    }
    need
}
