// The request tables that are compared. What a table is like are the digits of its number, so that every kind of sizes meets every kind of lives, of
// offsets, of length and of faults; the rest is drawn.
ghost use Rattle.std.specs.Prelude.{◌≤◌};

use crate::draw::{self, Purpose};
use crate::rows::GREATEST_ROWS;

// Each kind of sizes, lives, offsets, length and faults with each, 5 by 4 by 4 by 4 by 8, twice.
pub(crate) const TABLES: u32 = 5120;

// Words enough for three rows more than are allowed, and three words.
pub(crate) const GREATEST_WORDS: usize = 4 * GREATEST_ROWS + 15;

const SPACES: [u32; 4] = [512, 2048, 16384, 16777216];

// Spaces that are too large.
const GREAT_SPACES: [u32; 4] = [4294967295, 16777217, 16777217, 16777217];

// Sizes at the ends of the range, or of a step.
const EXTREMES: [u32; 6] = [16777216, 16777215, 16777201, 16777200, 1, 0];

// The ways in which a row is made bad: which of its words is changed, and to what.
const BAD_WORDS: [(usize, i32); 9] = [
    (0, -1),
    (0, 16777217),
    (1, -1),
    (2, 65536),
    (2, -1),
    (3, -2),
    (3, 8),
    (3, 16777232),
    (3, -2147483648),
];

// Any; all of two steps, so that they are equal in what they take; all equal; at the ends; every other one empty.
#[derive(Clone, Copy)]
enum Sizes {
    Any,
    TwoSteps,
    Equal,
    Extreme,
    EveryOtherEmpty,
}

// Any; all alive together; a chain, each from its own moment to the next row's; of one moment each, at the end of the range.
#[derive(Clone, Copy)]
enum Lives {
    Any,
    Together,
    Chain,
    OneMoment,
}

// Which rows are fixed: none; every third, apart from the others; every other one, close to the others; one in eight, far up.
#[derive(Clone, Copy)]
enum Offsets {
    Free,
    EveryThird,
    EveryOther,
    OneInEight,
}

// How many rows: few, some, many, or up to as many as are allowed.
#[derive(Clone, Copy)]
enum Length {
    Few,
    Some,
    Many,
    Long,
}

// Which faults a table has. Half of the tables have none, three in eight have one, and in the others each stands with an even chance.
#[derive(Clone, Copy)]
enum Faults {
    Nothing,
    One,
    Each,
}

// The faults that a table may have. Of bad rows there are up to two.
#[derive(Clone, Copy)]
pub enum Fault {
    PartOfARow,
    TooManyRows,
    ShortRoom,
    GreatSpace,
    BadRows,
}

// What a table is like, by the digits of its number.
#[derive(Clone, Copy)]
struct Kind {
    number: u32,
    sizes: Sizes,
    lives: Lives,
    offsets: Offsets,
    length: Length,
    faults: Faults,
}

impl Kind {
    fn of(number: u32) -> Kind {
        Kind {
            number,
            sizes: match number % 5 {
                0 => Sizes::Any,
                1 => Sizes::TwoSteps,
                2 => Sizes::Equal,
                3 => Sizes::Extreme,
                _ => Sizes::EveryOtherEmpty,
            },
            lives: match number / 5 % 4 {
                0 => Lives::Any,
                1 => Lives::Together,
                2 => Lives::Chain,
                _ => Lives::OneMoment,
            },
            offsets: match number / 20 % 4 {
                0 => Offsets::Free,
                1 => Offsets::EveryThird,
                2 => Offsets::EveryOther,
                _ => Offsets::OneInEight,
            },
            length: match number / 80 % 4 {
                0 => Length::Few,
                1 => Length::Some,
                2 => Length::Many,
                _ => Length::Long,
            },
            faults: match number / 320 % 8 {
                0..=3 => Faults::Nothing,
                4..=6 => Faults::One,
                _ => Faults::Each,
            },
        }
    }

    // A number from 0 up to a bound, without it, drawn for the table.
    fn below(&self, bound: u32, purpose: Purpose) -> u32
        ensures { result ≤ 16777215 }
    {
        draw::below(bound, self.number, purpose)
    }

    // Whether the table has the fault.
    fn has(&self, fault: Fault) -> bool {
        match self.faults {
            Faults::Nothing => false,
            Faults::One => self.below(5, Purpose::OneFault) == fault as u32,
            Faults::Each => self.below(2, Purpose::EachFault(fault)) == 0,
        }
    }

    // A long table has as many rows as are allowed one time in 48, since that costs most, or a quarter or an eighth of them.
    fn rows(&self) -> u32 {
        if self.has(Fault::TooManyRows) {
            return GREATEST_ROWS as u32 + 1 + self.below(3, Purpose::Rows);
        }
        match self.length {
            Length::Few => self.below(6, Purpose::Rows),
            Length::Some => 4 + self.below(20, Purpose::Rows),
            Length::Many => 20 + self.below(60, Purpose::Rows),
            Length::Long => match self.below(48, Purpose::Rows) {
                0 => GREATEST_ROWS as u32,
                1..=7 => 256,
                _ => 128,
            },
        }
    }

    // How many offsets are lent: three more than rows, or too few.
    fn room(&self) -> usize {
        let rows = self.rows();
        if self.has(Fault::ShortRoom) {
            return self.below(rows, Purpose::Room) as usize;
        }
        rows as usize + 3
    }

    // The space that the table is planned in first.
    fn space(&self) -> u32 {
        let choice = self.below(4, Purpose::Space) as usize % 4;
        if self.has(Fault::GreatSpace) {
            return GREAT_SPACES[choice];
        }
        SPACES[choice]
    }

    // The size of a row.
    fn size(&self, row: u32) -> u32 {
        let purpose = Purpose::Size(row);
        match self.sizes {
            Sizes::Any => self.below(400, purpose),
            Sizes::TwoSteps => 17 + self.below(16, purpose),
            Sizes::Equal => 1 + self.below(300, Purpose::EqualSize),
            Sizes::Extreme => EXTREMES[self.below(6, purpose) as usize % 6],
            Sizes::EveryOtherEmpty => self.below(row % 2 * 100, purpose),
        }
    }

    // The first moment of a row, and how many more there are.
    fn life(&self, row: u32) -> (u32, u32) {
        match self.lives {
            Lives::Any => (
                self.below(20, Purpose::First(row)),
                self.below(8, Purpose::LengthOfLife(row)),
            ),
            Lives::Together => (3, 4),
            Lives::Chain => (row, 1),
            Lives::OneMoment => (65530 + self.below(6, Purpose::First(row)), 0),
        }
    }

    // Where the row is, if it is fixed.
    fn offset(&self, row: u32) -> Option<u32> {
        let step = self.below(40, Purpose::Offset(row));
        match self.offsets {
            Offsets::Free => None,
            Offsets::EveryThird => (row % 3 == 0).then_some(row.saturating_mul(512)),
            Offsets::EveryOther => (row % 2 == 0).then_some(step * 16),
            Offsets::OneInEight => {
                let fixed = self.below(8, Purpose::Fixed(row)) == 0;
                fixed.then_some(step * 64 + 16774720)
            }
        }
    }

    // The words of a row.
    fn row(&self, row: u32) -> [i32; 4] {
        let (first, more) = self.life(row);
        [
            word(self.size(row)),
            word(first),
            word(first.saturating_add(more)),
            self.offset(row).map_or(-1, word),
        ]
    }

    // Makes a row bad.
    fn spoil(&self, purpose: Purpose, words: &mut [i32]) {
        let start = self.below(self.rows(), purpose) as usize * 4;
        let (column, bad) = BAD_WORDS[self.below(9, purpose) as usize % 9];
        if let Some(word) = words.get_mut(start.saturating_add(column)) {
            *word = bad;
        }
    }

    // How many words: those of the rows, and up to three more where the table is to have a part of a row.
    fn words(&self) -> usize {
        let whole = self.rows() as usize * 4;
        if self.has(Fault::PartOfARow) {
            return whole + 1 + self.below(3, Purpose::MoreWords) as usize;
        }
        whole
    }

    // The table's rows and the words of a part of a row, in the first of the words that are lent. Up to two rows are bad where the table is to have bad ones;
    // where it has no rows, that is the part of one.
    fn requests<'a>(&self, words: &'a mut [i32; GREATEST_WORDS]) -> &'a [i32] {
        let length = self.words().min(GREATEST_WORDS);
        let requests = &mut words[..length];
        requests.fill(0);
        let (table, _) = requests.as_chunks_mut::<4>();
        for (row, words) in (0..self.rows()).zip(table) {
            *words = self.row(row);
        }
        if self.has(Fault::BadRows) {
            self.spoil(Purpose::BadRow, requests);
            self.spoil(Purpose::OtherBadRow, requests);
        }
        requests
    }
}

// The word of a number, or -1 where it has none, as no number that is drawn is: a table may have any word.
fn word(number: u32) -> i32 {
    i32::try_from(number).unwrap_or(-1)
}

// A table, how many rows it has, the space that it is planned in, and how many offsets are lent.
#[derive(Clone, Copy)]
pub struct Table<'a> {
    pub number: u32,
    pub rows: u32,
    pub requests: &'a [i32],
    pub space: u32,
    pub room: usize,
}

impl<'a> Table<'a> {
    // The table of that number, its requests in the words that are lent.
    pub(crate) fn new(number: u32, words: &'a mut [i32; GREATEST_WORDS]) -> Table<'a> {
        let kind = Kind::of(number);
        Table {
            number,
            rows: kind.rows(),
            requests: kind.requests(words),
            space: kind.space(),
            room: kind.room(),
        }
    }
}
