// Document 01, "Answer numbers": an answer is a number, two places a and b, and a need; each is 0 unless the document names it. Code tells a refusal by
// its cause, and an answer is made of it where it goes to the caller.
#![tactic(auto)]

ghost use Rattle.std.specs.Prelude.{◌≡◌};
ghost use Rattle.answer.specs.Answer.{done_with, done_at, refused as refused_by, refused_at, refused_pair, refused_need};
ghost use Rattle.answer.specs.Refusals.{number_of_cause, refused_for, refused_for_at, refused_for_pair, refused_for_need, told, answer_of, verdict_of};

#[derive(Clone, Copy, Debug, PartialEq, Eq)]
pub struct Answer {
    pub number: u32,
    pub a: u32,
    pub b: u32,
    pub need: u64,
}

// Why a call is refused. A cause's value is the number that the document's list gives it.
#[derive(Clone, Copy, Debug, PartialEq, Eq)]
pub enum Cause {
    NotWholeRows = 1,
    TooMany = 2,
    TableTooShort = 3,
    SpaceTooLarge = 4,
    BadRow = 5,
    FixedRowsCollide = 6,
    NeedExceedsSpace = 7,
    FixedRowMoved = 8,
    BadOffset = 9,
    RowsCollide = 10,
    BadAccess = 11,
    ArenaTooShort = 12,
    SectionsNotValid = 13,
    BadAlignment = 14,
    NoRoom = 15,
    TemporariesOut = 16,
    HeadMadeSmaller = 17,
    WrongLength = 18,
    OtherTensorCount = 19,
    TensorNeverNamed = 20,
    ReadBeforeWritten = 21,
    BadTypeCode = 24,
    BadAllocationKind = 25,
}

impl Cause {
    // The number that the list gives it.
    pub fn number(self) -> u32
        ensures { result ≡ number_of_cause self }
    {
        self as u32
    }
}

// A refusal: its cause, and what the list lets it carry. An enum whose causes carry their own rows would be no plainer: whoever tells another's cause with a
// row of its own, as requests from shapes do, would match all of them.
#[derive(Clone, Copy, Debug, PartialEq, Eq)]
pub struct Refusal {
    pub cause: Cause,
    pub a: u32,
    pub b: u32,
    pub need: u64,
}

impl Refusal {
    // With nothing carried.
    pub fn of(cause: Cause) -> Refusal
        ensures { result ≡ refused_for cause }
    {
        Refusal {
            cause,
            a: 0,
            b: 0,
            need: 0,
        }
    }

    // For one row, touch, tensor or use.
    pub fn at(cause: Cause, a: u32) -> Refusal
        ensures { result ≡ refused_for_at cause a }
    {
        let mut refusal = Refusal::of(cause);
        refusal.a = a;
        refusal
    }

    // For two rows.
    pub fn pair(cause: Cause, a: u32, b: u32) -> Refusal
        ensures { result ≡ refused_for_pair cause a b }
    {
        let mut refusal = Refusal::at(cause, a);
        refusal.b = b;
        refusal
    }

    // For a need, which is carried.
    pub fn with_need(cause: Cause, need: u64) -> Refusal
        ensures { result ≡ refused_for_need cause need }
    {
        let mut refusal = Refusal::of(cause);
        refusal.need = need;
        refusal
    }
}

impl Answer {
    // The number of an answer that is no refusal.
    pub const DONE: u32 = 0;

    // The causes' numbers, for whoever is handed an answer.
    pub const NOT_WHOLE_ROWS: u32 = Cause::NotWholeRows as u32;

    pub const TOO_MANY: u32 = Cause::TooMany as u32;

    pub const TABLE_TOO_SHORT: u32 = Cause::TableTooShort as u32;

    pub const SPACE_TOO_LARGE: u32 = Cause::SpaceTooLarge as u32;

    pub const BAD_ROW: u32 = Cause::BadRow as u32;

    pub const FIXED_ROWS_COLLIDE: u32 = Cause::FixedRowsCollide as u32;

    pub const NEED_EXCEEDS_SPACE: u32 = Cause::NeedExceedsSpace as u32;

    pub const FIXED_ROW_MOVED: u32 = Cause::FixedRowMoved as u32;

    pub const BAD_OFFSET: u32 = Cause::BadOffset as u32;

    pub const ROWS_COLLIDE: u32 = Cause::RowsCollide as u32;

    pub const BAD_ACCESS: u32 = Cause::BadAccess as u32;

    pub const ARENA_TOO_SHORT: u32 = Cause::ArenaTooShort as u32;

    pub const SECTIONS_NOT_VALID: u32 = Cause::SectionsNotValid as u32;

    pub const BAD_ALIGNMENT: u32 = Cause::BadAlignment as u32;

    pub const NO_ROOM: u32 = Cause::NoRoom as u32;

    pub const TEMPORARIES_OUT: u32 = Cause::TemporariesOut as u32;

    pub const HEAD_MADE_SMALLER: u32 = Cause::HeadMadeSmaller as u32;

    pub const WRONG_LENGTH: u32 = Cause::WrongLength as u32;

    pub const OTHER_TENSOR_COUNT: u32 = Cause::OtherTensorCount as u32;

    pub const TENSOR_NEVER_NAMED: u32 = Cause::TensorNeverNamed as u32;

    pub const READ_BEFORE_WRITTEN: u32 = Cause::ReadBeforeWritten as u32;

    pub const BAD_TYPE_CODE: u32 = Cause::BadTypeCode as u32;

    pub const BAD_ALLOCATION_KIND: u32 = Cause::BadAllocationKind as u32;

    // Done, with the need of the plan.
    pub fn done(need: u64) -> Answer
        ensures { result ≡ done_with need }
    {
        Answer {
            number: Answer::DONE,
            a: 0,
            b: 0,
            need,
        }
    }

    // Done, with the start of what was allocated.
    pub fn done_at(start: u32) -> Answer
        ensures { result ≡ done_at start }
    {
        let mut answer = Answer::done(0);
        answer.a = start;
        answer
    }

    // Refused by any number, with nothing carried. These four are for callers that have a number; whoever has a cause makes a `Refusal`.
    pub fn refused(number: u32) -> Answer
        ensures { result ≡ refused_by number }
    {
        Answer {
            number,
            ..Answer::done(0)
        }
    }

    // Refused for one row, touch, tensor or use.
    pub fn refused_at(number: u32, a: u32) -> Answer
        ensures { result ≡ refused_at number a }
    {
        let mut answer = Answer::refused(number);
        answer.a = a;
        answer
    }

    // Refused for two rows.
    pub fn refused_pair(number: u32, a: u32, b: u32) -> Answer
        ensures { result ≡ refused_pair number a b }
    {
        let mut answer = Answer::refused_at(number, a);
        answer.b = b;
        answer
    }

    // Refused for a need, which is carried.
    pub fn refused_need(number: u32, need: u64) -> Answer
        ensures { result ≡ refused_need number need }
    {
        let mut answer = Answer::refused(number);
        answer.need = need;
        answer
    }
}

// The numbers of the document's list, by which alone a caller may know an answer.
const _: () = prove!(Answer::DONE == 0);

const _: () = prove!(Answer::NOT_WHOLE_ROWS == 1);

const _: () = prove!(Answer::TOO_MANY == 2);

const _: () = prove!(Answer::TABLE_TOO_SHORT == 3);

const _: () = prove!(Answer::SPACE_TOO_LARGE == 4);

const _: () = prove!(Answer::BAD_ROW == 5);

const _: () = prove!(Answer::FIXED_ROWS_COLLIDE == 6);

const _: () = prove!(Answer::NEED_EXCEEDS_SPACE == 7);

const _: () = prove!(Answer::FIXED_ROW_MOVED == 8);

const _: () = prove!(Answer::BAD_OFFSET == 9);

const _: () = prove!(Answer::ROWS_COLLIDE == 10);

const _: () = prove!(Answer::BAD_ACCESS == 11);

const _: () = prove!(Answer::ARENA_TOO_SHORT == 12);

const _: () = prove!(Answer::SECTIONS_NOT_VALID == 13);

const _: () = prove!(Answer::BAD_ALIGNMENT == 14);

const _: () = prove!(Answer::NO_ROOM == 15);

const _: () = prove!(Answer::TEMPORARIES_OUT == 16);

const _: () = prove!(Answer::HEAD_MADE_SMALLER == 17);

const _: () = prove!(Answer::WRONG_LENGTH == 18);

const _: () = prove!(Answer::OTHER_TENSOR_COUNT == 19);

const _: () = prove!(Answer::TENSOR_NEVER_NAMED == 20);

const _: () = prove!(Answer::READ_BEFORE_WRITTEN == 21);

const _: () = prove!(Answer::BAD_TYPE_CODE == 24);

const _: () = prove!(Answer::BAD_ALLOCATION_KIND == 25);

// A refusal, told to the caller.
impl From<Refusal> for Answer {
    ghost from_gives = { λ refusal answer. answer ≡ told refusal };

    fn from(refusal: Refusal) -> Answer {
        Answer {
            number: refusal.cause.number(),
            a: refusal.a,
            b: refusal.b,
            need: refusal.need,
        }
    }
}

// What came of a call that has a need to tell.
impl From<Result<u64, Refusal>> for Answer {
    ghost from_gives = { λ outcome answer. answer ≡ answer_of outcome };

    fn from(outcome: Result<u64, Refusal>) -> Answer {
        outcome.map_or_else(Answer::from, Answer::done)
    }
}

// What came of checks, which tell nothing where they pass.
impl From<Result<(), Refusal>> for Answer {
    ghost from_gives = { λ outcome answer. answer ≡ verdict_of outcome };

    fn from(outcome: Result<(), Refusal>) -> Answer {
        match outcome {
            Ok(()) => Answer::done(0),
            Err(refusal) => Answer::from(refusal),
        }
    }
}
