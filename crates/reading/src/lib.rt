// Reads an order: a list of 16-bit numbers (document 01, "The order"; question 2).
#![tactic(auto)]

ghost use Rattle.std.specs.Prelude.{◌≡◌};
ghost use Rattle.order.specs.Grammar.{read_order};
ghost use Rattle.order.specs.Answers.{reading_of};

use list_ingredients::counted_ingredients;
use list_steps::counted_steps;
use order::Refused;

// Question 2: does the list read to its exact end?
pub fn read(list: &[u16]) -> Result<(), Refused>
    ensures { result ≡ reading_of (read_order list.now) }
{
    if 32768 < list.len() {
        return Err(Refused { place: 32768 });
    }
    let next = counted_ingredients(list)?;
    let end = counted_steps(list, next)?;
    let at = end.at;
    if at < list.len() {
        return Err(Refused { place: at });
    }
    Ok(())
}
