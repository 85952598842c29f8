// Kinds of number that cannot be mixed by mistake (document 01, "Requests and the greedy rule").
#![tactic(auto)]

// A moment of a tensor's life: the number of an operator.
#[derive(Clone, Copy, PartialEq, Eq, PartialOrd, Ord)]
pub struct Moment(pub u32);

// A place in the arena, in bytes from its start. 64 bits: 256 tensors of the largest size over one another pass 32.
#[derive(Clone, Copy, PartialEq, Eq, PartialOrd, Ord)]
pub struct Offset(pub u64);

// The number of a row of the request table.
#[derive(Clone, Copy, PartialEq, Eq, PartialOrd, Ord)]
pub struct Row(pub usize);

// The number of a tensor of the operator list.
#[derive(Clone, Copy, PartialEq, Eq, PartialOrd, Ord)]
pub struct Tensor(pub usize);
