// Lives from an operator list (document 01, "The desk's order of checks", Lives; of model outputs, document 02, order 2): one pass over the uses gathers
// what they say of each tensor, and one more finds the lowest use that reads too early. The documents' life is a lifetime here.
#![tactic(auto)]

mod gather;

ghost use Rattle.std.specs.Prelude.{◌*◌, ◌≤◌, ◌≡◌, length};
ghost use Rattle.std.specs.Option.{option_map};
ghost use Rattle.answer.specs.Refusals.{verdict_of};
ghost use Rattle.bounded.specs.First.{found_in};
ghost use Rattle.bounded.specs.Replaced.{replaced};
ghost use Rattle.lifetime_rule.specs.Answers.{EachGood};
ghost use Rattle.lifetime_rule.specs.FromUses.{judged_of, lifetimes_of, final_lifetimes};
ghost use Rattle.lifetime_rule.specs.Uses.{count as count_of, greatest_tensors, greatest_uses};
ghost use Rattle.units.specs.Numbered.{tensor_of};
ghost use Rattle.tensor_lifetimes.specs.Gathered.{HoldsLifetimes, StorableLifetimes, unnamed_in, reads_early, early_in, stored_word};

use answer::{Answer, Cause, Refusal};
use known_lifetimes::Lifetime;
use lifetime_rule::Use;
use operator_uses::{GREATEST_TENSORS, LIFETIME_WORDS};
use units::Tensor;
use use_rows::{OperatorList, READS};

// The lowest tensor that no operator names, if there is one.
fn lowest_unnamed(list: &OperatorList, gathered: &[Lifetime; GREATEST_TENSORS]) -> Option<Tensor>
    requires { list.now.tensors ≤ greatest_tensors }
    ensures { result ≡ option_map tensor_of (found_in (unnamed_in list.now.operators gathered.now) 0 list.now.tensors) }
{
    (0..list.tensors as usize)
        .find(|tensor| list.operators <= gathered[*tensor].first.0)
        .map(Tensor)
}

// Whether the use reads its tensor before it may be read.
fn reads_early(usage: Use, gathered: &[Lifetime; GREATEST_TENSORS]) -> bool
    ensures { result ≡ reads_early gathered.now usage }
{
    usage.role == READS
        && gathered
            .get(usage.tensor.0)
            .is_some_and(|lifetime| usage.operator < lifetime.readable)
}

// The lowest use that reads a tensor before it may be read, if there is one.
fn lowest_early(list: &OperatorList, gathered: &[Lifetime; GREATEST_TENSORS]) -> Option<usize>
    ensures { result ≡ found_in (early_in list.now.uses.now gathered.now) 0 (count_of list.now.uses.now) }
{
    (0..list.count()).find(|k| reads_early(list.usage(*k), gathered))
}

// The checks 20 and 21: the tensors that no operator names, and the uses that read too early.
fn judge(list: &OperatorList, gathered: &[Lifetime; GREATEST_TENSORS]) -> Result<(), Refusal>
    requires each_good { EachGood list.now.operators list.now.tensors list.now.uses.now }
    requires holds_lifetimes { HoldsLifetimes list.now.operators list.now.uses.now gathered.now }
    requires tensors_le_greatest_tensors { (list.now.tensors ≤ greatest_tensors) × (count_of list.now.uses.now ≤ greatest_uses) }
    ensures { verdict_of result ≡ judged_of list.now.operators list.now.tensors list.now.uses.now }
{
    if let Some(tensor) = lowest_unnamed(list, gathered) {
        return Err(Refusal::at(Cause::TensorNeverNamed, tensor.0 as u32));
    }
    if let Some(row) = lowest_early(list, gathered) {
        return Err(Refusal::at(Cause::ReadBeforeWritten, row as u32));
    }
    Ok(())
}

// Stores the lives of so many tensors, two entries each, in the first entries of the table.
fn store(tensors: u32, gathered: &[Lifetime; GREATEST_TENSORS], lifetimes: &mut [i32])
    requires tensors_le_greatest_tensors { (tensors ≤ greatest_tensors) × (tensors * 2 ≤ length lifetimes.old) }
    requires storable_lifetimes { StorableLifetimes tensors gathered.now }
    ensures { lifetimes.new ≡ replaced (stored_word gathered.now) (tensors * 2) lifetimes.old }
{
    for (tensor, lifetime) in gathered[..tensors as usize].iter().enumerate() {
        let first_entry = tensor * LIFETIME_WORDS;
        let last = lifetime.end.0 - 1;
        lifetimes[first_entry] = lifetime.first.0.cast_signed();
        lifetimes[first_entry + 1] = last.cast_signed();
    }
}

// The checks in their order, then the lives into the table.
fn gather_lifetimes(list: &OperatorList, lifetimes: &mut [i32]) -> Result<(), Refusal>
    ensures answer { verdict_of result ≡ lifetimes_of list.now.operators list.now.tensors list.now.uses.now (length lifetimes.old) }
    ensures table { lifetimes.new ≡ final_lifetimes list.now.operators list.now.tensors list.now.uses.now lifetimes.old }
{
    operator_uses::check(list, lifetimes.len())?;
    let gathered = gather::gather(list);
    judge(list, &gathered)?;
    store(list.tensors, &gathered, lifetimes);
    Ok(())
}

// Document 01's lives. Refused: 1, 2, 3, 5, 20, 21, in that order, and nothing changes; done: all zeros, and in the first entries of `lifetimes` the first
// and the last operator of each tensor's life, which is the last of all for a model output.
pub fn from_uses(operators: u32, tensors: u32, uses: &[i32], lifetimes: &mut [i32]) -> Answer
    ensures answer { result ≡ lifetimes_of operators tensors uses.now (length lifetimes.old) }
    ensures table { lifetimes.new ≡ final_lifetimes operators tensors uses.now lifetimes.old }
{
    let list = OperatorList {
        operators,
        tensors,
        uses,
    };
    Answer::from(gather_lifetimes(&list, lifetimes))
}
