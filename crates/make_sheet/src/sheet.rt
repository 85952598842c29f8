// A request sheet, made entry by entry.
use crate::refusal::Reason;
use crate::rows::{Form, Row};
use crate::text;
use crate::text::Entry;
use arrayvec::ArrayVec;
use request_table::GREATEST_ROWS;
use shape_rule::SHAPE_WORDS;
use std::io;
use std::io::Write;

// The bytes of the mark, the version, the number of rows and the space.
const HEADER_BYTES: usize = 11;

const WORD_BYTES: usize = 4;

// The bytes of the longest sheet, which has the most rows in the longer form.
const GREATEST_SHEET: usize = HEADER_BYTES + WORD_BYTES * SHAPE_WORDS * GREATEST_ROWS;

// As many rows as a sheet holds, in memory that the program lends.
pub type Rows = ArrayVec<Row, GREATEST_ROWS>;

// What the lines so far gave. The rows stand in the program's own memory, so that none is asked for.
#[derive(Drop)]
pub struct Progress<'a> {
    rows: &'a mut Rows,
    space: Option<u32>,
}

#[derive(Clone, Copy)]
pub struct Sheet<'a> {
    rows: &'a Rows,
    space: u32,
}

impl<'a> Progress<'a> {
    // The rows are to be none yet.
    pub(crate) fn new(rows: &'a mut Rows) -> Progress<'a> {
        Progress { rows, space: None }
    }

    fn add_space(&mut self, space: u32) -> Result<(), Reason> {
        match self.space.replace(space) {
            Some(_) => Err(Reason::SecondSpace),
            None => Ok(()),
        }
    }

    fn add_row(&mut self, row: Row) -> Result<(), Reason> {
        if let Some(first) = self.rows.first()
            && first.form() != row.form()
        {
            return Err(Reason::BothForms);
        }
        self.rows.try_push(row).map_err(|_| Reason::TooManyRows)
    }

    // Takes a line. One that says nothing adds nothing.
    pub(crate) fn add_line(&mut self, line: &[u8]) -> Result<(), Reason> {
        match text::entry_of(line)? {
            Some(Entry::Space(space)) => self.add_space(space),
            Some(Entry::Row(row)) => self.add_row(row),
            None => Ok(()),
        }
    }

    // The sheet, if a line gave the space.
    pub(crate) fn finish(self) -> Result<Sheet<'a>, Reason> {
        let Progress { rows, space } = self;
        let space = space.ok_or(Reason::NoSpace)?;
        Ok(Sheet { rows, space })
    }
}

impl Sheet<'_> {
    // The version goes by the form of the rows. A sheet without rows has version 1.
    fn version(&self) -> u16 {
        match self.rows.first().map(Row::form) {
            Some(Form::Shapes) => 2,
            Some(Form::Sizes) | None => 1,
        }
    }

    // The mark, the version, the number of rows, the space and the rows. Of each number the lowest byte comes first. It fails only where the bytes have no
    // room for a sheet.
    fn write_to(&self, bytes: &mut impl Write) -> io::Result<()> {
        bytes.write_all(b"ARN")?;
        bytes.write_all(&self.version().to_le_bytes())?;
        bytes.write_all(&(self.rows.len() as u16).to_le_bytes())?;
        bytes.write_all(&self.space.to_le_bytes())?;
        for row in self.rows.as_slice() {
            for word in row.words() {
                bytes.write_all(&word.to_le_bytes())?;
            }
        }
        Ok(())
    }

    pub(crate) fn write(&self, rt: &impl Print) -> io::Result<()> {
        let mut bytes = ArrayVec::<u8, GREATEST_SHEET>::new();
        self.write_to(&mut bytes)?;
        rt.write_all(bytes.as_slice())
    }
}
