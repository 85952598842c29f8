// Running a touch script over a lent arena (document 01, "The desk's order of checks"): the whole script is judged before the first touch, and on
// refusal not a byte changes. The document's touch is an access here.
#![tactic(auto)]

ghost use Rattle.std.specs.Prelude.{◌<◌, ◌≤◌, true, ◌≡◌, length};
ghost use Rattle.answer.specs.Refusals.{verdict_of};
ghost use Rattle.bounded.specs.Replaced.{replaced};
ghost use Rattle.request_table.specs.Limits.{grid as grid_of};
ghost use Rattle.access_rule.specs.Accesses.{count as count_of, allowed, greatest_accesses};
ghost use Rattle.access_rule.specs.Ready.{Ready};
ghost use Rattle.access_rule.specs.Run.{byte_of, arena_by, byte_by, arena_after, answer_byte};
ghost use Rattle.access_rule.specs.Script.{touches_of, script_of, final_arena, final_bytes};

use access_rule::Access;
use accesses::ACCESS_WORDS;
use answer::{Answer, Cause, Refusal};
use proposals::Proposal;
use request_rows::Table;

// The checks 12 and 11: the arena, which is told with no place, and the touches.
fn judge_accesses(table: &Table, space: u32, accesses: &[i32], held: usize) -> Result<(), Refusal>
    requires { count_of accesses.now ≤ greatest_accesses }
    ensures { verdict_of result ≡ touches_of table.now.words.now space accesses.now held }
{
    let arena_short = held < space as usize;
    if arena_short {
        return Err(Refusal::at(Cause::ArenaTooShort, 0));
    }
    if let Some(touch) = accesses::lowest_bad(table, accesses) {
        return Err(Refusal::at(Cause::BadAccess, touch as u32));
    }
    Ok(())
}

// The whole judging: the lengths, the plan, and past both the arena and the touches. The need is the inspector's to tell; a script that is done carries
// nothing.
fn judge(
    proposal: &Proposal,
    space: u32,
    accesses: &[i32],
    held: usize,
    room: usize,
) -> Result<(), Refusal>
    ensures { verdict_of result ≡ script_of proposal.now.table.grid proposal.now.table.words.now space proposal.now.offsets.now accesses.now held room }
{
    accesses::check_lengths(proposal, accesses, room)?;
    plan_inspector::judge(proposal, space)?;
    judge_accesses(&proposal.table, space, accesses, held)
}

// Performs one touch, and gives the byte read or written.
fn touch(offsets: &[i32], access: Access, arena: &mut [u8]) -> u8
    requires access_in_bounds { byte_of offsets.now access < length arena.old }
    requires access_value { allowed access ≡ true }
    ensures arena { arena.new ≡ arena_by offsets.now access arena.old }
    ensures byte { result ≡ byte_by offsets.now access arena.old }
{
    let offset = proposals::proposed_at(offsets, access.row);
    let place = offset.0 as usize + access.index as usize;
    let found = arena[place];
    let Some(value) = access.write else {
        return found;
    };
    let byte = value as u8;
    arena[place] = byte;
    byte
}

// Performs every touch, in script order: each finds the arena as the one before left it. The loop goes by the touch's number: over the entries of `bytes`,
// cut off by `take`, its invariant could not speak of the table.
fn perform(offsets: &[i32], accesses: &[i32], arena: &mut [u8], bytes: &mut [u8])
    requires { Ready offsets.now accesses.now (length arena.old) (length bytes.old) }
    ensures arena { arena.new ≡ arena_after offsets.now accesses.now arena.old (count_of accesses.now) }
    ensures bytes { bytes.new ≡ replaced (answer_byte offsets.now accesses.now arena.old) (count_of accesses.now) bytes.old }
{
    let n = accesses.len() / ACCESS_WORDS;
    for k in 0..n {
        bytes[k] = touch(offsets, accesses::access_at(accesses, k), arena);
    }
}

// The judging, then the touches. A refusal changes nothing; a script that is done has no need to tell.
fn run_script(
    proposal: &Proposal,
    space: u32,
    accesses: &[i32],
    arena: &mut [u8],
    bytes: &mut [u8],
) -> Result<(), Refusal>
    requires { 0 < proposal.now.table.grid }
    ensures answer { verdict_of result ≡ script_of proposal.now.table.grid proposal.now.table.words.now space proposal.now.offsets.now accesses.now (length arena.old) (length bytes.old) }
    ensures arena { arena.new ≡ final_arena proposal.now.table.grid proposal.now.table.words.now space proposal.now.offsets.now accesses.now arena.old bytes.old }
    ensures bytes { bytes.new ≡ final_bytes proposal.now.table.grid proposal.now.table.words.now space proposal.now.offsets.now accesses.now arena.old bytes.old }
{
    judge(proposal, space, accesses, arena.len(), bytes.len())?;
    perform(proposal.offsets, accesses, arena, bytes);
    Ok(())
}

// Document 01's touch script. Refused: 1, 2, 3, 4, 5, 8, 9, 7, 10, 12, 11, in that order, and nothing changes; done: all zeros, the arena as the touches
// leave it, and in the first entries of `bytes` the byte that each read or wrote.
pub fn run(
    requests: &[i32],
    space: u32,
    offsets: &[i32],
    accesses: &[i32],
    arena: &mut [u8],
    bytes: &mut [u8],
) -> Answer
    ensures answer { result ≡ script_of grid_of requests.now space offsets.now accesses.now (length arena.old) (length bytes.old) }
    ensures arena { arena.new ≡ final_arena grid_of requests.now space offsets.now accesses.now arena.old bytes.old }
    ensures bytes { bytes.new ≡ final_bytes grid_of requests.now space offsets.now accesses.now arena.old bytes.old }
{
    let table = Table {
        grid: requests::GRID,
        words: requests,
    };
    let proposal = Proposal { table, offsets };
    Answer::from(run_script(&proposal, space, accesses, arena, bytes))
}
