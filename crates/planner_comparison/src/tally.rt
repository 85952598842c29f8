// What was met, counted.
use answer::Answer;
use std::fmt;

// The answers by number, the tables, those of them that have as many rows as are allowed, and how often two answers or plans differ.
#[derive(Default, Drop)]
pub struct Tally {
    tables: u64,
    longest: u64,
    planner: [u64; 8],
    inspector: [u64; 11],
    disagreements: u64,
}

fn add(count: &mut u64) {
    *count = count.saturating_add(1);
}

// Counts an answer's number.
fn add_answer(counts: &mut [u64], answer: Answer) {
    if let Some(count) = counts.get_mut(answer.number as usize) {
        add(count);
    }
}

impl Tally {
    // Counts a table, and whether it has as many rows as are allowed.
    pub(crate) fn add_table(&mut self, longest: bool) {
        add(&mut self.tables);
        if longest {
            add(&mut self.longest);
        }
    }

    // Counts the planner's answer, and whether the second one's plan is another.
    pub(crate) fn add_plan(&mut self, answer: Answer, same: bool) {
        add_answer(&mut self.planner, answer);
        self.add_comparison(same);
    }

    // Counts the inspector's answer, and whether our own is another.
    pub(crate) fn add_inspection(&mut self, answer: Answer, same: bool) {
        add_answer(&mut self.inspector, answer);
        self.add_comparison(same);
    }

    fn add_comparison(&mut self, same: bool) {
        if !same {
            add(&mut self.disagreements);
        }
    }
}

impl fmt::Display for Tally {
    fn fmt<W: fmt::Write>(&self, f: &mut fmt::Formatter<W>) -> fmt::Result {
        let tables = self.tables;
        let longest = self.longest;
        let disagreements = self.disagreements;
        writeln!(f, "tables {tables}")?;
        writeln!(f, "tables of 1024 rows {longest}")?;
        for (number, count) in self.planner.iter().enumerate() {
            writeln!(f, "planner {number}: {count}")?;
        }
        for (number, count) in self.inspector.iter().enumerate() {
            writeln!(f, "inspector {number}: {count}")?;
        }
        write!(f, "disagreements {disagreements}")
    }
}
