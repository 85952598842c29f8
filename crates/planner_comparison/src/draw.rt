// Numbers that look drawn by lot and are the same in every run. Each is worked out from what it is drawn for, so that no state is handed on.
ghost use Rattle.std.specs.Prelude.{◌≤◌};

use crate::generator::Fault;

// What a number is drawn for: something of a row or of the whole table, or for a change of a plan a row, and another one to exchange it with.
#[derive(Clone, Copy)]
pub enum Purpose {
    Size(u32),
    First(u32),
    LengthOfLife(u32),
    Fixed(u32),
    Offset(u32),
    Rows,
    MoreWords,
    Room,
    Space,
    EqualSize,
    BadRow,
    OtherBadRow,
    OneFault,
    EachFault(Fault),
    ChangedRow(u32),
    OtherRow(u32),
}

impl Purpose {
    // What stands for the purpose in the drawing. Row numbers are below 2,048 and changes below 1,000, so that no two purposes share a number but the
    // one fault and the first of each, of which no table draws both. The numbers stay as they are: the tables that are drawn, and the counts that are printed,
    // come of them.
    fn number(self) -> u32 {
        match self {
            Purpose::Size(row) => row % 2048 * 8,
            Purpose::First(row) => row % 2048 * 8 + 1,
            Purpose::LengthOfLife(row) => row % 2048 * 8 + 2,
            Purpose::Fixed(row) => row % 2048 * 8 + 3,
            Purpose::Offset(row) => row % 2048 * 8 + 4,
            Purpose::Rows => 60000,
            Purpose::MoreWords => 60001,
            Purpose::Room => 60002,
            Purpose::Space => 60003,
            Purpose::EqualSize => 60004,
            Purpose::BadRow => 60005,
            Purpose::OtherBadRow => 60006,
            Purpose::OneFault => 60010,
            Purpose::EachFault(fault) => 60010 + fault as u32,
            Purpose::ChangedRow(change) => 61000 + change % 1000,
            Purpose::OtherRow(change) => 62000 + change % 1000,
        }
    }
}

// A round of mixing: of what is mixed 32 bits are kept, and multiplied.
fn mixed(number: u64) -> u64 {
    ((number ^ (number >> 16)) % (1 << 32)) * 73244475
}

// A number from 0 up to a bound, without it, for a table and a purpose. At 0 it is 0. None is above 24 bits.
pub(crate) fn below(bound: u32, table: u32, purpose: Purpose) -> u32
    ensures { result ≤ 16777215 }
{
    let seed = u64::from(table) * 65536 + u64::from(purpose.number());
    let number = (mixed(mixed(mixed(seed))) >> 16) % (1 << 24);
    (number as u32).checked_rem(bound).unwrap_or(0)
}
