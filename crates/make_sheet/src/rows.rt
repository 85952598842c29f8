// The rows of a sheet, as words. All have one form: a size with its lifetime, or a shape with its type code and lifetime.
use crate::text::Words;
use request_table::ROW_WORDS;
use shape_rule::SHAPE_WORDS;
use tensor_sizes::GREATEST_DIMENSIONS;

// Where the words of a shape stand, behind the type code: the number of dimensions, the dimensions, and the moments with the offset.
const NUMBER_COLUMN: usize = 1;

const DIMENSIONS_COLUMN: usize = 2;

const MOMENTS_COLUMN: usize = DIMENSIONS_COLUMN + GREATEST_DIMENSIONS;

// In a line the type code, the moments and the offset stand before the dimensions, so that the line need not tell their number.
const LEADING_WORDS: usize = 4;

// The words of the longest such line.
const GREATEST_LINE: usize = LEADING_WORDS + GREATEST_DIMENSIONS;

#[derive(Clone, Copy, PartialEq)]
pub enum Form {
    Sizes,
    Shapes,
}

#[derive(Clone, Copy)]
pub enum Row {
    Size([i32; ROW_WORDS]),
    Shape([i32; SHAPE_WORDS]),
}

// What stands where there is no row yet.
impl Default for Row {
    fn default() -> Row {
        Row::Size([0; ROW_WORDS])
    }
}

impl Row {
    pub(crate) fn form(&self) -> Form {
        match self {
            Row::Size(_) => Form::Sizes,
            Row::Shape(_) => Form::Shapes,
        }
    }

    pub(crate) fn words(&self) -> &[i32] {
        match self {
            Row::Size(words) => words,
            Row::Shape(words) => words,
        }
    }
}

// Reads the numbers that as many words spell as there are entries.
fn read_numbers(words: &mut Words<'_>, numbers: &mut [i32]) -> Option<()> {
    for number in numbers {
        *number = decimal_text::signed(words.next()?)?;
    }
    Some(())
}

// The row of a size that the words of a line spell: four numbers and no more.
pub(crate) fn size(mut words: Words<'_>) -> Option<Row> {
    let mut row = [0; ROW_WORDS];
    read_numbers(&mut words, &mut row)?;
    if words.next().is_some() {
        return None;
    }
    Some(Row::Size(row))
}

// The row of a shape that the words behind `shape` spell: four numbers, then up to eight dimensions and no more. A dimension past their number is written
// as 0. Of the words that are too many only the first is counted.
pub(crate) fn shape(mut words: Words<'_>) -> Option<Row> {
    let count = words
        .take(GREATEST_LINE + 1)
        .count()
        .checked_sub(LEADING_WORDS)?;
    let mut leading = [0; LEADING_WORDS];
    read_numbers(&mut words, &mut leading)?;
    let [code, first, last, offset] = leading;
    let mut dimensions = [0; GREATEST_DIMENSIONS];
    read_numbers(&mut words, dimensions.get_mut(..count)?)?;
    let mut row = [0; SHAPE_WORDS];
    row[0] = code;
    row[NUMBER_COLUMN] = i32::try_from(count).ok()?;
    row[DIMENSIONS_COLUMN..MOMENTS_COLUMN].copy_from_slice(&dimensions);
    row[MOMENTS_COLUMN..].copy_from_slice(&[first, last, offset]);
    Some(Row::Shape(row))
}
