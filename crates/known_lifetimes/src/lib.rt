// What is known of a tensor from the uses so far, and what one use more adds to it.
#![tactic(auto)]

ghost use Rattle.std.specs.Prelude.{◌≤◌, ◌≡◌};
ghost use Rattle.lifetime_rule.specs.Uses.{greatest_operators};
ghost use Rattle.known_lifetimes.specs.OneUseMore.{readable_with, lifetime_with};

use lifetime_rule::Use;
use operator_uses::GREATEST_OPERATORS;
use units::Moment;
use use_rows::{MODEL_INPUT, MODEL_OUTPUT, WRITES};

// What the uses say of a tensor: the lowest operator that names it; one past the last of its life, which is the highest that names it or, for a model
// output, the last of all; and the lowest that may read it. Where there is none, the number of operators stands for a lowest one, and the end is 0: an
// `Option` in its place would make `self.first.min(operator)` into `Some(self.first.map_or(operator, |first| first.min(operator)))`, and the 1,024 lives
// that `tensor_lifetimes` keeps on the stack twice as long.
#[derive(Clone, Copy)]
pub struct Lifetime {
    pub first: Moment,
    pub end: Moment,
    pub readable: Moment,
}

impl Lifetime {
    // The lowest operator that may read the tensor, with one use of it more: any may read a model input, and a write lets those after its operator.
    #[tactic(auto, unfolding(crate::specs::OneUseMore::readable_with))]
    fn readable_with(self, usage: Use) -> Moment
        requires { usage.operator.0 ≤ greatest_operators }
        ensures { result.0 ≡ readable_with self.readable.0 usage }
    {
        match usage.role {
            MODEL_INPUT => Moment(0),
            WRITES => self.readable.min(Moment(usage.operator.0 + 1)),
            _ => self.readable,
        }
    }

    // What is known of a tensor with one use of it more, by a model of so many operators. A model output lives through the last of them, and who names it or
    // may read it stays; the operator of a model input is 0. A use of another role or past the limit of operators, which no good use is, says nothing: so
    // nothing is asked of the caller, and no sum can wrap.
    #[tactic(auto, unfolding(crate::specs::OneUseMore::lifetime_with))]
    pub fn with(self, usage: Use, operators: u32) -> Lifetime
        ensures { result ≡ lifetime_with self usage operators }
    {
        if (MODEL_OUTPUT < usage.role) | (GREATEST_OPERATORS < usage.operator.0) {
            return self;
        }
        if usage.role == MODEL_OUTPUT {
            let end = Moment(operators);
            return Lifetime { end, ..self };
        }
        Lifetime {
            first: self.first.min(usage.operator),
            end: self.end.max(Moment(usage.operator.0 + 1)),
            readable: self.readable_with(usage),
        }
    }
}
