// Reading a touch script (document 01, "The desk's order of checks"): its touches, whether a touch is good, the lowest that is not; and the checks 1 to 3
// of the script's tables. The document's touch is an access here. All is total: any script, any touch, any tables.
#![tactic(auto)]

ghost use Rattle.std.specs.Prelude.{◌≡◌};
ghost use Rattle.answer.specs.Refusals.{verdict_of};
ghost use Rattle.bounded.specs.First.{found_in};
ghost use Rattle.access_rule.specs.Accesses.{count as count_of, access, moment_before, good, bad_access};
ghost use Rattle.access_rule.specs.Script.{lengths_of};

use access_rule::Access;
use answer::Refusal;
use proposals::Proposal;
use request_rows::Table;
use units::{Moment, Row};

// A touch is this many words: moment, request row, index, value.
pub const ACCESS_WORDS: usize = 4;
// At most this many touches.
pub const GREATEST_ACCESSES: usize = 16384;
// The greatest value that a touch may write.
const GREATEST_BYTE: u32 = 255;

// Touch k of the script; past its end, a touch of zeros.
pub fn access_at(accesses: &[i32], k: usize) -> Access
    ensures { result ≡ access accesses.now k }
{
    // Past the end every word reads as 0, wherever the touch would stand, so that no place is worked out that could overflow.
    if accesses.len() <= k {
        return Access {
            moment: Moment(0),
            row: Row(0),
            index: 0,
            write: Some(0),
        };
    }
    let at = k * ACCESS_WORDS;
    let moment = words::natural(accesses, at);
    let row = words::natural(accesses, at + 1);
    let index = words::natural(accesses, at + 2);
    let reads = words::is_minus_one(accesses, at + 3);
    let value = words::natural(accesses, at + 3);
    let write = if reads { None } else { Some(value) };
    Access {
        moment: Moment(moment),
        row: Row(row as usize),
        index,
        write,
    }
}

// The moment of the touch before; before the first there is none, and 0 stands for it, as in
// the definition: every moment is at least that.
#[tactic(auto, unfolding(access_rule::specs::Accesses::moment_before))]
fn moment_before(accesses: &[i32], k: usize) -> Moment
    ensures { result.0 ≡ moment_before accesses.now k }
{
    if k == 0 {
        return Moment(0);
    }
    access_at(accesses, k - 1).moment
}

// Whether touch k is good: its moment is at least the one before, it names a row alive at that moment and a byte within the row's size, and its value is
// allowed.
fn is_good(table: &Table, accesses: &[i32], k: usize) -> bool
    ensures { result ≡ good table.now.words.now accesses.now k }
{
    let access = access_at(accesses, k);
    let request = table.request(access.row);
    let rises = moment_before(accesses, k) <= access.moment;
    let listed = access.row.0 < table.rows();
    let alive = (request.first <= access.moment) & (access.moment <= request.last);
    let within = access.index < request.size;
    let allowed = access.write.is_none_or(|value| value <= GREATEST_BYTE);
    rises & (listed & (alive & (within & allowed)))
}

// The lowest bad touch, if there is one.
pub fn lowest_bad(table: &Table, accesses: &[i32]) -> Option<usize>
    ensures { result ≡ found_in (bad_access table.now.words.now accesses.now) 0 (count_of accesses.now) }
{
    (0..accesses.len() / ACCESS_WORDS).find(|k| !is_good(table, accesses, *k))
}

// The checks 1 to 3, each for either of two tables.
#[tactic(auto, unfolding(length_checks::specs::LengthChecks::lengths_of, access_rule::specs::Script::lengths_of))]
pub fn check_lengths(proposal: &Proposal, accesses: &[i32], room: usize) -> Result<(), Refusal>
    ensures { verdict_of result ≡ lengths_of proposal.now.table.words.now proposal.now.offsets.now accesses.now room }
{
    let rows = proposal.table.rows();
    let count = accesses.len() / ACCESS_WORDS;
    let ragged = (proposal.table.words.len() % request_table::ROW_WORDS != 0)
        | (accesses.len() % ACCESS_WORDS != 0);
    let too_many = (request_table::GREATEST_ROWS < rows) | (GREATEST_ACCESSES < count);
    let too_short = (proposal.offsets.len() < rows) | (room < count);
    length_checks::check(ragged, too_many, too_short)
}
