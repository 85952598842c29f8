// Persistent allocations through a ledger that records them by kind (document 02, order 4). Sections and ledger go in by value and come back beside the
// answer. The allocation itself is the sections' own. Any ledger may be handed in: one that does not agree with the sections is refused by number 13.
#![tactic(auto)]

ghost use Rattle.std.specs.Prelude.{◌-◌, ◌≡◌};
ghost use Rattle.arena_sections.specs.Sections.{base_alignment};
ghost use Rattle.recording_rule.specs.Cases.{Recordable, recording_of_step};
ghost use Rattle.recording_rule.specs.Kinds.{code_of};
ghost use Rattle.recording_rule.specs.Ledger.{with_keep_of};
ghost use Rattle.recording_rule.specs.Recording.{recording_of};

use answer::{Answer, Cause, Refusal};
use arena_sections::Sections;
use recording_rule::{Kind, Ledger, Recording};

// The ledger with one allocation more of a kind, which took its size and gap from the tail.
fn with_allocation(ledger: Ledger, kind: Kind, size: u32, taken: u32) -> Ledger
    requires { Recordable ledger (code_of kind) size taken }
    ensures { result ≡ with_keep_of ledger (code_of kind) size (taken - size) }
{
    let entry = kind as usize;
    let mut next = ledger;
    let recorded = &mut next.kinds[entry];
    recorded.requested += size;
    recorded.used += taken;
    recorded.count += 1;
    next
}

// The start, the sections' next state and the next ledger. What the ledger refuses stands among the sections' own refusals: 13 behind their own 13, and 25
// and 2 between 14 and 15.
fn try_allocate_persistent(
    sections: Sections,
    ledger: Ledger,
    code: u32,
    size: u32,
    alignment: u32,
) -> Result<(u32, Sections, Ledger), Cause>
    ensures { recording_of_step result sections ledger ≡ recording_of base_alignment sections ledger code size alignment }
{
    if !sections.is_valid() {
        return Err(Cause::SectionsNotValid);
    }
    if !ledger_entries::is_balanced(ledger, sections.usable - sections.tail) {
        return Err(Cause::SectionsNotValid);
    }
    sections.check_allocation(alignment)?;
    let kind = Kind::try_from(code)?;
    if Ledger::GREATEST_COUNT <= ledger_entries::of_kind(ledger, code).count {
        return Err(Cause::TooMany);
    }
    let (start, next) = sections.try_allocate_persistent(size, alignment)?;
    let taken = sections.tail - next.tail;
    Ok((start, next, with_allocation(ledger, kind, size, taken)))
}

// Document 02's keep through the ledger, as one of the kinds. Refused: 13, 14, 25, 2, 15, and sections and ledger come back as they were; done: a is the
// start.
pub fn allocate_persistent(
    sections: Sections,
    ledger: Ledger,
    kind: u32,
    size: u32,
    alignment: u32,
) -> Recording
    ensures { result ≡ recording_of base_alignment sections ledger kind size alignment }
{
    match try_allocate_persistent(sections, ledger, kind, size, alignment) {
        Ok((start, next, recorded)) => Recording {
            answer: Answer::done_at(start),
            sections: next,
            ledger: recorded,
        },
        Err(cause) => Recording {
            answer: Answer::from(Refusal::of(cause)),
            sections,
            ledger,
        },
    }
}
