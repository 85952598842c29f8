// That the inspector accepts the plans of our planners: laws alone, in specs/. Neither the inspector's rule nor a planner's knows of the other.
#![tactic(auto)]
