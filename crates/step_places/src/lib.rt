// Look-ups of single steps, by number from 1. Their cost does not grow with the entries of the ingredients, which are passed over.
#![tactic(auto)]

ghost use Rattle.std.specs.Prelude.{◌≡◌};
ghost use Rattle.order.specs.Grammar.{read_order};
ghost use Rattle.places.specs.Places.{steps_start, step_at, step_after};
ghost use Rattle.step_places.specs.StepCount.{step_count};

use list_ingredients::counted_ingredients;
use list_numbers::number;
use list_steps::{step, steps};
use order::{Cursor, Refused, Stage};
use reading::read;

// How many steps a list that reads has, and where the first stands.
fn steps_start(list: &[u16]) -> Result<(usize, Cursor), Refused>
    ensures { result ≡ steps_start (read_order list.now) }
{
    read(list)?;
    let next = counted_ingredients(list)?;
    number(list, next, 1, 16)
}

// The step after k others.
fn step_after(list: &[u16], start: Cursor, k: usize) -> Option<Stage>
    ensures { result ≡ step_after k list.now start.at }
{
    let next = steps(list, start, k).ok()?;
    let (found, _) = step(list, next).ok()?;
    Some(found)
}

// How many steps the list has.
pub fn step_count(list: &[u16]) -> usize
    ensures { result ≡ step_count (read_order list.now) }
{
    match steps_start(list) {
        Ok((z, _)) => z,
        Err(_) => 0,
    }
}

// Step number k.
pub fn step_at(list: &[u16], k: usize) -> Option<Stage>
    ensures { result ≡ step_at (read_order list.now) k }
{
    let (z, next) = steps_start(list).ok()?;
    if k == 0 {
        return None;
    }
    if z < k {
        return None;
    }
    step_after(list, next, k - 1)
}
