// The head, temporary and tail section of one arena (document 01, "Three sections in one arena"). The state goes in by value and the next state comes
// back beside the answer. Any state may be handed in: one that is not valid is refused by number 13, and a refusal hands the same state back.
#![tactic(auto)]

ghost use Rattle.std.specs.Prelude.{◌≡◌};
ghost use Rattle.arena_sections.specs.Cases.{outcome_by, checked_by};
ghost use Rattle.arena_sections.specs.Sections.{base_alignment, zeros, fresh as fresh_state, valid, refused_outcome, open_of, allocation_of, persistent_of, temp_of, reset_of, head_of};

use answer::{Answer, Cause};

// Where the sections end. In a valid state head ≤ temp ≤ tail ≤ usable ≤ GREATEST_LENGTH.
#[derive(Clone, Copy, Debug, PartialEq, Eq)]
pub struct Sections {
    pub head: u32,
    pub temp: u32,
    pub tail: u32,
    pub usable: u32,
}

// An operation's answer, with the next state.
#[derive(Clone, Copy, Debug, PartialEq, Eq)]
pub struct Outcome {
    pub answer: Answer,
    pub sections: Sections,
}

impl Outcome {
    // Refused by any number; this state is handed back.
    pub fn refused(number: u32, sections: Sections) -> Outcome
        ensures { result ≡ refused_outcome number sections }
    {
        Outcome {
            answer: Answer::refused(number),
            sections,
        }
    }

    // What came of an operation: done with the start and the next state, or refused, and this state is handed back. An operation that starts nothing
    // gives 0 for the start.
    pub fn of(step: Result<(u32, Sections), Cause>, sections: Sections) -> Outcome
        ensures { result ≡ outcome_by step sections }
    {
        match step {
            Ok((start, next)) => Outcome {
                answer: Answer::done_at(start),
                sections: next,
            },
            Err(cause) => Outcome::refused(cause.number(), sections),
        }
    }
}

impl Sections {
    // The greatest usable length.
    pub const GREATEST_LENGTH: u32 = 16_777_216;

    // The alignment of the usable part, and the greatest alignment of an allocation.
    pub const BASE_ALIGNMENT: u32 = 16;

    // An arena of which nothing is used.
    fn fresh(usable: u32) -> Sections
        ensures { result ≡ fresh_state usable }
    {
        Sections {
            head: 0,
            temp: 0,
            tail: usable,
            usable,
        }
    }

    // Opens the arena of `length` bytes at `start`. What lies before the first multiple of the base alignment is lost. Refused: 13, with a state of zeros.
    pub fn open(start: u64, length: u64) -> Outcome
        ensures { result ≡ open_of base_alignment start length }
    {
        Outcome::of(Sections::try_open(start, length), Sections::fresh(0))
    }

    // The arena that `open` opens.
    fn try_open(start: u64, length: u64) -> Result<(u32, Sections), Cause>
        ensures { outcome_by result zeros ≡ open_of base_alignment start length }
    {
        let lost = alignment::bytes_lost(Sections::BASE_ALIGNMENT, start) as u64;
        let usable = length.checked_sub(lost).ok_or(Cause::SectionsNotValid)?;
        if (Sections::GREATEST_LENGTH as u64) < usable {
            return Err(Cause::SectionsNotValid);
        }
        Ok((0, Sections::fresh(usable as u32)))
    }

    // Whether this is a state that the operations work on.
    #[tactic(auto, unfolding(crate::specs::Sections::valid))]
    pub fn is_valid(self) -> bool
        ensures { result ≡ valid self }
    {
        let temporaries = (self.head <= self.temp) & (self.temp <= self.tail);
        temporaries & ((self.tail <= self.usable) & (self.usable <= Sections::GREATEST_LENGTH))
    }

    // The checks 13 and 14, with which both allocations begin. Each is known before the first is told, so that their order can be read off.
    #[tactic(auto, unfolding(crate::specs::Sections::allocation_of))]
    pub fn check_allocation(self, alignment: u32) -> Result<(), Cause>
        ensures { checked_by result self ≡ allocation_of base_alignment self alignment }
    {
        let valid = self.is_valid();
        let allowed = alignment::is_allowed(Sections::BASE_ALIGNMENT, alignment);
        if !valid {
            return Err(Cause::SectionsNotValid);
        }
        if !allowed {
            return Err(Cause::BadAlignment);
        }
        Ok(())
    }

    // Document 01's keep: allocates at the tail, for as long as the arena is used. Refused: 13, 14, 15; done: a is the start.
    pub fn allocate_persistent(self, size: u32, alignment: u32) -> Outcome
        ensures { result ≡ persistent_of base_alignment self size alignment }
    {
        Outcome::of(self.try_allocate_persistent(size, alignment), self)
    }

    // The start and the next state of a keep. TensorFlow Lite Micro compares the start with the head only; here no temporary is ever met.
    pub fn try_allocate_persistent(
        self,
        size: u32,
        alignment: u32,
    ) -> Result<(u32, Sections), Cause>
        ensures { outcome_by result self ≡ persistent_of base_alignment self size alignment }
    {
        self.check_allocation(alignment)?;
        let room = self.tail.checked_sub(size).ok_or(Cause::NoRoom)?;
        let start = alignment::round_down(alignment, room);
        if start < self.temp {
            return Err(Cause::NoRoom);
        }
        let next = Sections {
            tail: start,
            ..self
        };
        Ok((start, next))
    }

    // Document 01's borrow: allocates above the temporaries, until they are reset. Refused: 13, 14, 15; done: a is the start.
    pub fn allocate_temp(self, size: u32, alignment: u32) -> Outcome
        ensures { result ≡ temp_of base_alignment self size alignment }
    {
        Outcome::of(self.try_allocate_temp(size, alignment), self)
    }

    // The start and the next state of a borrow.
    fn try_allocate_temp(self, size: u32, alignment: u32) -> Result<(u32, Sections), Cause>
        ensures { outcome_by result self ≡ temp_of base_alignment self size alignment }
    {
        self.check_allocation(alignment)?;
        let start = alignment::round_up(alignment, self.temp);
        let end = start + size as u64;
        if (self.tail as u64) < end {
            return Err(Cause::NoRoom);
        }
        let next = Sections {
            temp: end as u32,
            ..self
        };
        Ok((start as u32, next))
    }

    // Gives every temporary allocation back. Refused: 13.
    #[tactic(auto, unfolding(crate::specs::Sections::reset_of))]
    pub fn reset_temp(self) -> Outcome
        ensures { result ≡ reset_of self }
    {
        if !self.is_valid() {
            return Outcome::refused(Answer::SECTIONS_NOT_VALID, self);
        }
        let next = Sections {
            temp: self.head,
            ..self
        };
        Outcome::of(Ok((0, next)), self)
    }

    // Gives the head section a length; temporaries must be reset before. Refused: 13, 16, 17, 15.
    pub fn set_head(self, length: u32) -> Outcome
        ensures { result ≡ head_of self length }
    {
        Outcome::of(self.try_set_head(length), self)
    }

    // The next state with a head of that length.
    #[tactic(auto, unfolding(crate::specs::Sections::head_of))]
    fn try_set_head(self, length: u32) -> Result<(u32, Sections), Cause>
        ensures { outcome_by result self ≡ head_of self length }
    {
        if !self.is_valid() {
            return Err(Cause::SectionsNotValid);
        }
        if self.temp != self.head {
            return Err(Cause::TemporariesOut);
        }
        if length < self.head {
            return Err(Cause::HeadMadeSmaller);
        }
        if self.tail < length {
            return Err(Cause::NoRoom);
        }
        let next = Sections {
            head: length,
            temp: length,
            ..self
        };
        Ok((0, next))
    }
}
