// A ledger as code (document 02, order 4): one to begin with, what was recorded of a kind, and whether a ledger agrees with itself and with what the tail
// has taken. Any ledger may be handed in.
#![tactic(auto)]

ghost use Rattle.std.specs.Prelude.{◌≡◌};
ghost use Rattle.bounded.specs.First.{holds_below};
ghost use Rattle.recording_rule.specs.Ledger.{kind_count, empty_ledger, of_kind, total_used, passes_used, balanced as balanced_against};

use recording_rule::{Ledger, RecordedAllocation};

// A ledger of zeros, to begin with.
pub fn empty_ledger() -> Ledger
    ensures { result ≡ empty_ledger }
{
    Ledger {
        kinds: [RecordedAllocation::default(); 6],
    }
}

// What was recorded of a kind; of a code that no kind has, nothing.
pub fn of_kind(ledger: Ledger, kind: u32) -> RecordedAllocation
    ensures { result ≡ of_kind ledger kind }
{
    ledger.kinds.get(kind as usize).copied().unwrap_or_default()
}

// The used bytes of all kinds. Six numbers of 32 bits need more than 32.
fn total_used(ledger: Ledger) -> u64
    ensures { result ≡ total_used ledger.kinds }
{
    ledger
        .kinds
        .iter()
        .map(|recorded| recorded.used as u64)
        .sum()
}

// Whether some kind's requested bytes pass its used bytes.
fn some_passes(ledger: Ledger) -> bool
    ensures { result ≡ holds_below (passes_used ledger) kind_count }
{
    ledger
        .kinds
        .iter()
        .any(|recorded| recorded.used < recorded.requested)
}

// Whether the ledger agrees with itself and with the bytes that the tail has taken.
#[tactic(auto, unfolding(recording_rule::specs::Ledger::balanced))]
pub fn is_balanced(ledger: Ledger, taken: u32) -> bool
    ensures { result ≡ balanced_against ledger taken }
{
    (total_used(ledger) == taken as u64) & !some_passes(ledger)
}
