// The plan inspector: judges a plan that anyone may have proposed, one offset for each row of the request table (document 01, "The desk's order of
// checks"). All is read where it lies; nothing is written.
#![tactic(auto)]

ghost use Rattle.std.specs.Prelude.{◌≤◌, ◌≡◌};
ghost use Rattle.answer.specs.Refusals.{answer_of};
ghost use Rattle.units.specs.Numbered.{row_of};
ghost use Rattle.request_table.specs.Limits.{grid as grid_of, greatest_rows};
ghost use Rattle.request_table.specs.Table.{rows as rows_of};
ghost use Rattle.inspection_rule.specs.Inspect.{proposed_collide, proposal_of, inspect_of};
ghost use Rattle.plan_inspector.specs.FirstPair.{first_pair_of};

use answer::{Answer, Cause, Refusal};
use proposals::Proposal;
use request_rows::Table;
use units::Row;

// The first pair of rows that collide, the least first row and then the least second. Document 01 has that two nested scans are left from inside, by
// a label, at that pair. The scan of `fixed_rows` is a function of its own: here the outer row's buffer is worked out once for all inner rows, which a test of
// two rows, handed to one function for both, could not do.
fn first_pair(proposal: &Proposal) -> Option<(Row, Row)>
    ensures { result ≡ first_pair_of row_of (proposed_collide proposal.now.table.grid proposal.now.table.words.now proposal.now.offsets.now) (rows_of proposal.now.table.words.now) }
{
    let n = proposal.table.rows();
    let mut pair = None;
    'scan: for a in 0..n {
        let first = proposal.buffer(Row(a));
        for b in a + 1..n {
            if buffers::collide(first, proposal.buffer(Row(b))) {
                pair = Some((Row(a), Row(b)));
                break 'scan;
            }
        }
    }
    pair
}

// The checks 8, 9, 7 and 10, in that order: the need of the plan, or what is wrong with it.
fn judge_offsets(proposal: &Proposal, space: u32) -> Result<u64, Refusal>
    requires { rows_of proposal.now.table.words.now ≤ greatest_rows }
    ensures { answer_of result ≡ proposal_of proposal.now.table.grid proposal.now.table.words.now space proposal.now.offsets.now }
{
    if let Some(row) = proposal.lowest_moved() {
        return Err(Refusal::at(Cause::FixedRowMoved, row.0 as u32));
    }
    if let Some(row) = proposal.lowest_off_grid() {
        return Err(Refusal::at(Cause::BadOffset, row.0 as u32));
    }
    let need = proposed_need::need_of(proposal);
    let exceeds = (space as u64) < need;
    if exceeds {
        return Err(Refusal::with_need(Cause::NeedExceedsSpace, need));
    }
    if let Some((a, b)) = first_pair(proposal) {
        return Err(Refusal::pair(Cause::RowsCollide, a.0 as u32, b.0 as u32));
    }
    Ok(need)
}

// The inspector on any grid: the need of a plan that is accepted, or what is wrong with it.
pub fn judge(proposal: &Proposal, space: u32) -> Result<u64, Refusal>
    ensures { answer_of result ≡ inspect_of proposal.now.table.grid proposal.now.table.words.now space proposal.now.offsets.now }
{
    requests::check(&proposal.table, space, proposal.offsets.len())?;
    judge_offsets(proposal, space)
}

// Document 01's inspector. Refused: 1, 2, 3, 4, 5, 8, 9, 7, 10, in that order; accepted: the need.
pub fn inspect(requests: &[i32], space: u32, offsets: &[i32]) -> Answer
    ensures { result ≡ inspect_of grid_of requests.now space offsets.now }
{
    let table = Table {
        grid: requests::GRID,
        words: requests,
    };
    Answer::from(judge(&Proposal { table, offsets }, space))
}
