// The sheet in hand, from one step to the next: what a step takes and leaves, and what all steps in turn come to, as definitions (specs/) and with the laws
// that the steps rest on (proofs/); and whether a step's kind may stand at its number.
#![tactic(auto)]

ghost use Rattle.std.specs.Prelude.{◌≡◌};
ghost use Rattle.sheet_in_hand.specs.Stepping.{kind_allowed};

// Question 5, of the kind alone: is the first step of kind 1 or 2, every later one 3 to 6?
pub fn allowed(number: usize, kind: usize) -> bool
    ensures { result ≡ kind_allowed number kind }
{
    if number == 1 { kind <= 2 } else { kind >= 3 }
}
