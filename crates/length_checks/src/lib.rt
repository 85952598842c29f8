// The checks 1, 2 and 3 (document 01, "Answer numbers"), with which the entry points over tables begin. What is long enough or too many is for each of them
// to say; which number is told is said here.
#![tactic(auto)]

ghost use Rattle.std.specs.Prelude.{◌≡◌};
ghost use Rattle.answer.specs.Refusals.{verdict_of};
ghost use Rattle.length_checks.specs.LengthChecks.{lengths_of};

use answer::{Cause, Refusal};

// Refused: 1 for a table that is not whole rows, 2 for one with too many, 3 for a lent one that is too short, in that order; else done, with no need.
#[tactic(auto, unfolding(crate::specs::LengthChecks::lengths_of))]
pub fn check(ragged: bool, many: bool, short: bool) -> Result<(), Refusal>
    ensures { verdict_of result ≡ lengths_of ragged many short }
{
    if ragged {
        return Err(Refusal::of(Cause::NotWholeRows));
    }
    if many {
        return Err(Refusal::of(Cause::TooMany));
    }
    if short {
        return Err(Refusal::of(Cause::TableTooShort));
    }
    Ok(())
}
