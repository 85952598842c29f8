// The checks 1, 2, 3 and 5 of the lives (document 01, "The desk's order of checks", Lives), and the limits of the operator list. All is total: any list,
// any numbers of operators and tensors, any room.
#![tactic(auto)]

ghost use Rattle.std.specs.Prelude.{◌≡◌};
ghost use Rattle.answer.specs.Refusals.{verdict_of};
ghost use Rattle.lifetime_rule.specs.FromUses.{sizes_of, list_of};

use answer::{Cause, Refusal};
use use_rows::{OperatorList, USE_WORDS};

// At most this many uses.
pub const GREATEST_USES: usize = 16384;
// At most this many operators.
pub const GREATEST_OPERATORS: u32 = 1024;
// At most this many tensors.
pub const GREATEST_TENSORS: usize = 1024;
// The entries of a life: its first moment and its last.
pub const LIFETIME_WORDS: usize = 2;

// The checks 1, 2 and 3: the list's length, its numbers and the room for the lives.
#[tactic(auto, unfolding(length_checks::specs::LengthChecks::lengths_of, lifetime_rule::specs::FromUses::sizes_of, lifetime_rule::specs::FromUses::out_of_limits))]
fn check_sizes(list: &OperatorList, room: usize) -> Result<(), Refusal>
    ensures { verdict_of result ≡ sizes_of list.now.operators list.now.tensors list.now.uses.now room }
{
    let ragged = list.uses.len() % USE_WORDS != 0;
    let many = (GREATEST_USES < list.count()) | (GREATEST_OPERATORS < list.operators);
    let out_of_limits = many | ((GREATEST_TENSORS < list.tensors as usize) | (list.operators == 0));
    let too_short = room < list.tensors as usize * LIFETIME_WORDS;
    length_checks::check(ragged, out_of_limits, too_short)
}

// The checks 1, 2, 3 and 5, in their order, of an operator list and a table of lifetimes with this room: a refusal, or done.
pub fn check(list: &OperatorList, room: usize) -> Result<(), Refusal>
    ensures { verdict_of result ≡ list_of list.now.operators list.now.tensors list.now.uses.now room }
{
    check_sizes(list, room)?;
    if let Some(row) = list.lowest_bad_use() {
        return Err(Refusal::at(Cause::BadRow, row as u32));
    }
    Ok(())
}
