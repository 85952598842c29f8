// Fields of numbers with spaces between. `12*7` stands for twelve sevens, and `12*16,i,i,-1` for twelve rows, in which `i` is the number of the row, from 0.
// A field that is not as its reader wants it makes the line no vector. Tables may be as long as any vector needs, so that a vector can pass each limit, and
// none of the limits stands here.
use crate::fault::Fault;
use crate::text;
use arena_sections::Sections;

// The words or bytes that a table of a vector may have: a little more than the longest script has, of 16,384 touches in four words each.
const ROOM: usize = 66000;

// A table of words, and one of bytes.
type Words = [i32; ROOM];

type Bytes = [u8; ROOM];

// As many tables as a vector needs at most. They are long, so that they are made once, and each vector reads into them and lends them anew.
#[derive(Drop)]
pub struct Tables {
    pub(crate) first_words: Words,
    pub(crate) second_words: Words,
    pub(crate) third_words: Words,
    pub(crate) first_bytes: Bytes,
    pub(crate) second_bytes: Bytes,
}

impl Tables {
    pub(crate) fn new() -> Tables {
        Tables {
            first_words: arrays::filled(0),
            second_words: arrays::filled(0),
            third_words: arrays::filled(0),
            first_bytes: arrays::filled(0),
            second_bytes: arrays::filled(0),
        }
    }
}

// What stands in a column of a row.
#[derive(Clone, Copy)]
enum Column {
    RowNumber,
    Word(i32),
}

// The fields of a vector that are still to be read. There are none in a line without a colon.
#[derive(Drop)]
pub struct Fields<'a> {
    rest: Option<&'a [u8]>,
}

fn read_column(text: &[u8]) -> Result<Column, Fault> {
    match text {
        b"i" => Ok(Column::RowNumber),
        _ => decimal_text::signed(text)
            .map(Column::Word)
            .ok_or(Fault::NotVector),
    }
}

// How often the row of an entry stands in its table, and the row. A row that stands more often than 32 bits tell is none: no table has room for it.
fn times_and_row(entry: &[u8]) -> Option<(i32, &[u8])> {
    match text::cut(entry, b'*') {
        (row, None) => Some((1, row)),
        (times, Some(row)) => Some((i32::try_from(decimal_text::natural(times)?).ok()?, row)),
    }
}

// Writes the rows of an entry behind the words that a table has so far, if there is room for them, and gives how many it has then. The columns are read
// anew for each row, so that they need no room of their own, and once before, since they are to be columns where the row stands no times too.
fn add_entry(table: &mut Words, mut count: usize, entry: &[u8]) -> Result<usize, Fault> {
    let (times, row) = times_and_row(entry).ok_or(Fault::NotVector)?;
    for column in row.split(|byte| *byte == b',').map(read_column) {
        column?;
    }
    for number in 0..times {
        for column in row.split(|byte| *byte == b',').map(read_column) {
            *table.get_mut(count).ok_or(Fault::NotVector)? = match column? {
                Column::RowNumber => number,
                Column::Word(word) => word,
            };
            count += 1;
        }
    }
    Ok(count)
}

// The word as a byte: what is left of it by 256, where one below 0 stands for 255.
fn byte_of(word: i32) -> u8 {
    (u32::try_from(word).unwrap_or(u32::MAX) % 256) as u8
}

impl<'a> Fields<'a> {
    pub(crate) fn new(body: Option<&'a [u8]>) -> Fields<'a> {
        Fields { rest: body }
    }

    fn next(&mut self) -> Result<&'a [u8], Fault> {
        let (field, rest) = text::cut(self.rest.ok_or(Fault::NotVector)?, b';');
        self.rest = rest;
        Ok(field)
    }

    // The next field without the space before it, if there is one.
    fn single(&mut self) -> Result<&'a [u8], Fault> {
        let field = self.next()?;
        Ok(field.strip_prefix(b" ").unwrap_or(field))
    }

    // Reads a field that is a table of words into a lent one, and gives the words read.
    pub(crate) fn words<'t>(&mut self, table: &'t mut Words) -> Result<&'t [i32], Fault> {
        let mut count = 0;
        for entry in self.next()?.split(|byte| *byte == b' ') {
            if !entry.is_empty() {
                count = add_entry(table, count, entry)?;
            }
        }
        table.get(..count).ok_or(Fault::NotVector)
    }

    // Reads a field that is a table of bytes into a lent one, over a lent table of words, and gives the bytes read.
    pub(crate) fn bytes<'t>(
        &mut self,
        room: &mut Words,
        table: &'t mut Bytes,
    ) -> Result<&'t [u8], Fault> {
        let words = self.words(room)?;
        let bytes = table.get_mut(..words.len()).ok_or(Fault::NotVector)?;
        for (byte, word) in bytes.iter_mut().zip(words) {
            *byte = byte_of(*word);
        }
        Ok(bytes)
    }

    // Reads a field that is a number of up to 64 bits.
    pub(crate) fn long(&mut self) -> Result<u64, Fault> {
        decimal_text::natural(self.single()?).ok_or(Fault::NotVector)
    }

    // Reads a field that is a number of up to 32 bits.
    pub(crate) fn number(&mut self) -> Result<u32, Fault> {
        u32::try_from(self.long()?).map_err(|_| Fault::NotVector)
    }

    // Reads a field that is a signed number of 32 bits.
    pub(crate) fn word(&mut self) -> Result<i32, Fault> {
        decimal_text::signed(self.single()?).ok_or(Fault::NotVector)
    }

    // Reads a field that is a length, and lends so much of a table, of one entry again and again.
    pub(crate) fn lent<'t, T: Copy>(
        &mut self,
        entry: T,
        table: &'t mut [T; ROOM],
    ) -> Result<&'t mut [T], Fault> {
        let length = self.long()? as usize;
        let lent = table.get_mut(..length).ok_or(Fault::NotVector)?;
        for place in lent.iter_mut() {
            *place = entry;
        }
        Ok(lent)
    }

    // Reads a state of the sections: head; temp; tail; usable.
    pub(crate) fn sections(&mut self) -> Result<Sections, Fault> {
        Ok(Sections {
            head: self.number()?,
            temp: self.number()?,
            tail: self.number()?,
            usable: self.number()?,
        })
    }

    // Whether all fields are read.
    pub(crate) fn end(self) -> Result<(), Fault> {
        match self.rest {
            Some(_) => Err(Fault::NotVector),
            None => Ok(()),
        }
    }
}
