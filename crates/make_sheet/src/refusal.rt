// Why a text gives no sheet.
use std::fmt;

#[derive(Clone, Copy)]
pub enum Reason {
    NotRow,
    NotShape,
    NotSpace,
    SecondSpace,
    BothForms,
    TooManyRows,
    NoSpace,
    TooLong,
}

impl fmt::Display for Reason {
    fn fmt<W: fmt::Write>(&self, f: &mut fmt::Formatter<W>) -> fmt::Result {
        f.write_str(match self {
            Reason::NotRow => "not four numbers of 32 bits",
            Reason::NotShape => "shape is not four to twelve numbers of 32 bits",
            Reason::NotSpace => "space is not one number of 32 bits",
            Reason::SecondSpace => "a second space",
            Reason::BothForms => "sizes and shapes in one text",
            Reason::TooManyRows => "more rows than a sheet holds",
            Reason::NoSpace => "no space given",
            Reason::TooLong => "text too long",
        })
    }
}
