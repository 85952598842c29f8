// The uses of the operator list (document 01, "The desk's order of checks", Lives): a use from its words, whether it is good, the lowest that is not. All
// is total: any list, any use, any numbers of operators and tensors.
#![tactic(auto)]

ghost use Rattle.std.specs.Prelude.{◌≡◌};
ghost use Rattle.bounded.specs.First.{found_in};
ghost use Rattle.lifetime_rule.specs.Uses.{count as count_of, use_at, good, bad_use};

use lifetime_rule::Use;
use units::{Moment, Tensor};

// A use is this many words: operator, tensor, role.
pub const USE_WORDS: usize = 3;
// The roles: the operator reads the tensor or writes it; or the tensor goes into the model or comes out of it. They are numbers and no enum, since a use
// holds the number that its table has: `good` of `lifetime_rule`, its law `tests`, and `says_nothing` of `known_lifetimes` speak of uses of any other role.
pub const READS: u32 = 0;

pub const WRITES: u32 = 1;

pub const MODEL_INPUT: u32 = 2;

pub const MODEL_OUTPUT: u32 = 3;

// Use k of the list; past its end, a use of zeros.
#[tactic(auto, using(crate::proofs::Tests::use_is, crate::proofs::Tests::use_past))]
pub fn use_at(uses: &[i32], k: usize) -> Use
    ensures { result ≡ use_at uses.now k }
{
    // Past the end every word reads as 0, wherever the use would stand, so that no place is worked out that could overflow.
    if uses.len() <= k {
        return Use {
            operator: Moment(0),
            tensor: Tensor(0),
            role: 0,
        };
    }
    let at = k * USE_WORDS;
    let operator = words::natural(uses, at);
    let tensor = words::natural(uses, at + 1);
    let role = words::natural(uses, at + 2);
    Use {
        operator: Moment(operator),
        tensor: Tensor(tensor as usize),
        role,
    }
}

// An operator list as whoever checks or gathers it reads it: the numbers of the model's operators and tensors, and the uses' words. The limits are no
// invariant of it: a list of any numbers and any length is read, and one that breaks a limit is refused by number 2.
#[derive(Clone, Copy)]
pub struct OperatorList<'a> {
    pub operators: u32,
    pub tensors: u32,
    pub uses: &'a [i32],
}

impl<'a> OperatorList<'a> {
    // How many uses it has.
    pub fn count(&self) -> usize
        ensures { result ≡ count_of self.now.uses.now }
    {
        self.uses.len() / USE_WORDS
    }

    // The use of that number; past the end, a use of zeros.
    pub fn usage(&self, k: usize) -> Use
        ensures { result ≡ use_at self.now.uses.now k }
    {
        use_at(self.uses, k)
    }

    // A good use: role, tensor and operator are in their ranges, and the operator of a role outside the model's operators is 0.
    #[tactic(auto, unfolding(lifetime_rule::specs::Uses::good))]
    fn is_good(&self, usage: Use) -> bool
        ensures { result ≡ good self.now.operators self.now.tensors usage }
    {
        let role = usage.role <= MODEL_OUTPUT;
        let tensor = usage.tensor.0 < self.tensors as usize;
        let operator = usage.operator.0 < self.operators;
        let zero_outside = (usage.role <= WRITES) | (usage.operator.0 == 0);
        role & (tensor & (operator & zero_outside))
    }

    // The lowest use that is not good, if there is one.
    pub fn lowest_bad_use(&self) -> Option<usize>
        ensures { result ≡ found_in (bad_use self.now.operators self.now.tensors self.now.uses.now) 0 (count_of self.now.uses.now) }
    {
        (0..self.count()).find(|k| !self.is_good(self.usage(*k)))
    }
}
