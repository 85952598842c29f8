// Check 6: whether two fixed rows collide, and which pair of them is the first. Every planner asks it.
#![tactic(auto)]

ghost use Rattle.std.specs.Prelude.{◌≡◌};
ghost use Rattle.request_table.specs.Table.{request};
ghost use Rattle.greedy_rule.specs.Plan.{fixed_collide};
ghost use Rattle.fixed_rows.specs.FixedPair.{fixed_pair};

use request_rows::Table;
use request_table::Request;
use units::Row;

// Whether both rows are fixed and collide, each at its own offset. The first row's request is handed in, since it is the same for many a second row.
#[tactic(auto, unfolding(greedy_rule::specs::Plan::fixed_collide))]
fn fixed_collide(table: &Table, a: Row, first: Request, b: Row) -> bool
    requires { first ≡ request table.now.words.now a.0 }
    ensures { result ≡ fixed_collide table.now.grid table.now.words.now a.0 b.0 }
{
    let second = table.request(b);
    match (first.offset, second.offset) {
        (Some(first_offset), Some(second_offset)) => buffers::collide(
            buffers::buffer_at(table.grid, first, first_offset),
            buffers::buffer_at(table.grid, second, second_offset),
        ),
        _ => false,
    }
}

// The first pair of fixed rows that collide, the least first row and then the least second: both scans end at once, at that pair:
// they are left from inside by a label, as document 01 asks.
pub fn first_pair(table: &Table) -> Option<(Row, Row)>
    ensures { result ≡ fixed_pair table.now.grid table.now.words.now }
{
    let n = table.rows();
    let mut pair = None;
    'scan: for a in 0..n {
        // Most rows are not fixed, and are the first of no pair.
        let first = table.request(Row(a));
        let fixed = first.offset.is_some();
        if !fixed {
            continue;
        }
        for b in a + 1..n {
            if fixed_collide(table, Row(a), first, Row(b)) {
                pair = Some((Row(a), Row(b)));
                break 'scan;
            }
        }
    }
    pair
}
