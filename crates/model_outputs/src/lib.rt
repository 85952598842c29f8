// That a model's outputs can be read after the last operator: laws alone, in proofs/, over the definitions of specs/. They join the rule for lives to
// demand 3, and neither knows of the other.
#![tactic(auto)]
