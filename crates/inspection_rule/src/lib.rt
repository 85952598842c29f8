// The inspector's rule has definitions and laws alone, in specs/ and proofs/; its code is `proposals` and `plan_inspector`.
#![tactic(auto)]
