// The need of a proposed plan, in 64 bits. All is total: any grid, any table, any offsets.
#![tactic(auto)]

ghost use Rattle.std.specs.Prelude.{◌≡◌};
ghost use Rattle.request_table.specs.Buffers.{buffer_at, end_or_zero};
ghost use Rattle.inspection_rule.specs.Inspect.{proposed, proposed_need};

use proposals::Proposal;
use units::Row;

// The end of the row's span, in 64 bits, which no proposed offset and no size can pass; an empty row counts for nothing.
#[tactic(auto, unfolding(request_table::specs::Buffers::end_or_zero))]
fn end_of(proposal: &Proposal, row: Row) -> u64
    ensures { result ≡ end_or_zero (buffer_at proposal.now.table.grid proposal.now.table.words.now row.0 (proposed proposal.now.offsets.now row.0)) }
{
    let request = proposal.table.request(row);
    let length = alignment::round_up(proposal.table.grid, request.size);
    let start = proposal.offset(row);
    if 0 < length {
        return start.0 + length;
    }
    0
}

// The need of the proposed plan: the greatest end of a nonempty row, or 0.
pub fn need_of(proposal: &Proposal) -> u64
    ensures { result ≡ proposed_need proposal.now.table.grid proposal.now.table.words.now proposal.now.offsets.now }
{
    (0..proposal.table.rows())
        .map(|row| end_of(proposal, Row(row)))
        .max()
        .unwrap_or(0)
}
