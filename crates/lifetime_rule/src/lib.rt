// The rows of an operator list. What they mean is in specs/: good uses, lives, and the answer with the lives that it leaves.
#![tactic(auto)]

use units::{Moment, Tensor};

// One use: an operator names a tensor in a role. The operator is the moment at which it runs.
#[derive(Clone, Copy)]
pub struct Use {
    pub operator: Moment,
    pub tensor: Tensor,
    pub role: u32,
}
