// Reads the operands of steps, but for the columns of MERGE, which are a series.
#![tactic(auto)]

pub mod operand_numbers; // operand_numbers.rt: the p of MERGE, and the numbers of ingredients

ghost use Rattle.std.specs.Prelude.{◌≡◌};
ghost use Rattle.order.specs.Reader.{allowed};
ghost use Rattle.order.specs.Grammar.{ingredient_number, counted, read_sum, read_split, read_cross};
ghost use Rattle.order.specs.Answers.{walk_after, walk_of};

use list_numbers::number;
use operand_numbers::{ingredient_number, ingredient_numbers, none_or_ingredient};
use order::{Cursor, Refused};

// How many matrices, and they.
fn matrices(list: &[u16], c: Cursor) -> Result<Cursor, Refused>
    ensures { result ≡ walk_of (counted 1 16 (allowed ingredient_number) list.now c.at) }
{
    let (count, next) = number(list, c, 1, 16)?;
    ingredient_numbers(list, next, count)
}

// The cursor after a number.
pub fn after(x: Result<(usize, Cursor), Refused>) -> Result<Cursor, Refused>
    ensures { result ≡ walk_after x }
{
    let (_, next) = x?;
    Ok(next)
}

// SUM: the matrices, and a table or none.
pub fn sum_operands(list: &[u16], c: Cursor) -> Result<Cursor, Refused>
    ensures { result ≡ walk_of (read_sum list.now c.at) }
{
    let next = matrices(list, c)?;
    after(none_or_ingredient(list, next))
}

// SPLIT: a column, and an ingredient.
pub fn split_operands(list: &[u16], c: Cursor) -> Result<Cursor, Refused>
    ensures { result ≡ walk_of (read_split list.now c.at) }
{
    let (_, next) = number(list, c, 1, 128)?;
    after(ingredient_number(list, next))
}

// CROSS: the operands of SUM, and an ingredient, which is never 0 (document 02, K6).
pub fn cross_operands(list: &[u16], c: Cursor) -> Result<Cursor, Refused>
    ensures { result ≡ walk_of (read_cross list.now c.at) }
{
    let next = sum_operands(list, c)?;
    after(ingredient_number(list, next))
}
