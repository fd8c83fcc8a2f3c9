// Look-ups of single ingredients, by number from 1. Their cost does not grow with the entries, which are passed over.
#![tactic(auto)]

ghost use Rattle.std.specs.Prelude.{◌≡◌};
ghost use Rattle.order.specs.Grammar.{read_order};
ghost use Rattle.places.specs.Places.{ingredients_start, ingredient_count, ingredient_at, ingredient_after};

use list_ingredients::{ingredient, ingredients};
use list_numbers::number;
use order::{Cursor, Located, Refused};
use reading::read;

// How many ingredients a list that reads has, and where the first stands.
pub fn ingredients_start(list: &[u16]) -> Result<(usize, Cursor), Refused>
    ensures { result ≡ ingredients_start (read_order list.now) }
{
    read(list)?;
    number(list, Cursor { at: 0 }, 0, 32)
}

// The ingredient after k others.
fn ingredient_after(list: &[u16], start: Cursor, k: usize) -> Option<Located>
    ensures { result ≡ ingredient_after k list.now start.at }
{
    let next = ingredients(list, start, k).ok()?;
    let (what, _) = ingredient(list, next).ok()?;
    Some(what)
}

// How many ingredients the list has.
pub fn ingredient_count(list: &[u16]) -> usize
    ensures { result ≡ ingredient_count (read_order list.now) }
{
    match ingredients_start(list) {
        Ok((q, _)) => q,
        Err(_) => 0,
    }
}

// Ingredient number i.
pub fn ingredient_at(list: &[u16], i: usize) -> Option<Located>
    ensures { result ≡ ingredient_at (read_order list.now) i }
{
    let (q, next) = ingredients_start(list).ok()?;
    if i == 0 {
        return None;
    }
    if q < i {
        return None;
    }
    ingredient_after(list, next, i - 1)
}
