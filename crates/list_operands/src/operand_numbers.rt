// The numbers that only operands of steps have: the p of MERGE, and the numbers of ingredients.
ghost use Rattle.std.specs.Prelude.{◌≡◌};
ghost use Rattle.order.specs.Reader.{allowed, repeated};
ghost use Rattle.order.specs.Grammar.{merge_prime, ingredient_number, none_or_ingredient};
ghost use Rattle.order.specs.Answers.{number_of, walk_of};

use list_numbers::{accept, peek, within};
use order::{Cursor, Refused};

// Whether p is 2, 3, 5 or 7.
fn is_merge_prime(p: usize) -> bool
    ensures { result ≡ merge_prime p }
{
    if p < 2 {
        return false;
    }
    if 7 < p {
        return false;
    }
    if p == 4 {
        return false;
    }
    p != 6
}

// The p of MERGE.
pub fn merge_prime(list: &[u16], c: Cursor) -> Result<(usize, Cursor), Refused>
    ensures { result ≡ number_of (allowed merge_prime list.now c.at) }
{
    accept(list, c, is_merge_prime(peek(list, c)))
}

// Whether i is 1 to 32 or 101 to 104.
fn is_ingredient_number(i: usize) -> bool
    ensures { result ≡ ingredient_number i }
{
    within(i, 1, 32) || within(i, 101, 104)
}

// The number of an ingredient.
pub fn ingredient_number(list: &[u16], c: Cursor) -> Result<(usize, Cursor), Refused>
    ensures { result ≡ number_of (allowed ingredient_number list.now c.at) }
{
    accept(list, c, is_ingredient_number(peek(list, c)))
}

// Whether k is 0 or the number of an ingredient.
fn is_none_or_ingredient(k: usize) -> bool
    ensures { result ≡ none_or_ingredient k }
{
    if k == 0 {
        return true;
    }
    is_ingredient_number(k)
}

// The number of an ingredient, or 0 for none.
pub(crate) fn none_or_ingredient(list: &[u16], c: Cursor) -> Result<(usize, Cursor), Refused>
    ensures { result ≡ number_of (allowed none_or_ingredient list.now c.at) }
{
    accept(list, c, is_none_or_ingredient(peek(list, c)))
}

// n numbers of ingredients.
pub(crate) fn ingredient_numbers(list: &[u16], start: Cursor, n: usize) -> Result<Cursor, Refused>
    ensures { result ≡ walk_of (repeated n (allowed ingredient_number) list.now start.at) }
{
    let mut c = start;
    for _ in 0..n {
        (_, c) = ingredient_number(list, c)?;
    }
    Ok(c)
}
