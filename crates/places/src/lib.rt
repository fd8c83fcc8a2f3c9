// Where single ingredients and steps stand in the list of an order, by number from 1, as definitions (specs/) and with the laws that the code rests on
// (proofs/). The crates `ingredient_places` and `step_places` have the code.
#![tactic(auto)]
