// Compares the planner with a second one and the inspector with a test of all pairs, on many tables, and prints what was met and how often they disagree.
// Every number printed is counted.
#![tactic(auto)]

use answer::Answer;
use generator::Table;
use std::io;
use tally::Tally;

mod all_pairs;
mod changes;
mod compare;
mod draw;
mod generator;
mod refusal;
mod rows;
mod second_planner;
mod tally;

// Plans a table in its own space and, where that is done, in the space that it needs, and in one byte less.
fn run(number: u32, words: &mut [i32; generator::GREATEST_WORDS], tally: &mut Tally) {
    let table = Table::new(number, words);
    tally.add_table(table.requests.len() == 4 * rows::GREATEST_ROWS);
    let answer = compare::plan(&table, table.space, tally);
    if answer.number != Answer::DONE {
        return;
    }
    let need = u32::try_from(answer.need).unwrap_or(u32::MAX);
    if let Some(less) = need.checked_sub(1) {
        compare::plan(&table, need, tally);
        compare::plan(&table, less, tally);
    }
}

fn main(rt: HostRuntime) -> io::Result<()> {
    let mut words = arrays::filled(0);
    let mut tally = Tally::default();
    for number in 0..generator::TABLES {
        run(number, &mut words, &mut tally);
    }
    println!(rt; "{tally}")
}
