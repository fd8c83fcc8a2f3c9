// Reads the steps of an order: each with its operands.
#![tactic(auto)]

ghost use Rattle.std.specs.Prelude.{◌≡◌, ◌+◌};
ghost use Rattle.order.specs.Reader.{repeated};
ghost use Rattle.order.specs.Grammar.{counted, read_merge, step_of, read_step};
ghost use Rattle.order.specs.Answers.{stage_of, walk_of};

use list_numbers::number;
use list_operands::operand_numbers::{ingredient_number, merge_prime};
use list_operands::{after, cross_operands, split_operands, sum_operands};
use list_series::series;
use order::{Cursor, Refused, Stage};

// MERGE: p, and p + 1 columns.
fn merge_operands(list: &[u16], c: Cursor) -> Result<Cursor, Refused>
    ensures { result ≡ walk_of (read_merge list.now c.at) }
{
    let (p, next) = merge_prime(list, c)?;
    series(list, next, p + 1, 1, 128)
}

// The operands of a step of a kind.
fn operands(list: &[u16], c: Cursor, kind: usize) -> Result<Cursor, Refused>
    ensures { result ≡ walk_of (step_of kind list.now c.at) }
{
    match kind {
        1 => after(ingredient_number(list, c)),
        2 => after(ingredient_number(list, c)),
        3 => sum_operands(list, c),
        4 => merge_operands(list, c),
        5 => split_operands(list, c),
        _ => cross_operands(list, c),
    }
}

// The step at the cursor.
pub fn step(list: &[u16], c: Cursor) -> Result<(Stage, Cursor), Refused>
    ensures { result ≡ stage_of (c.at + 1) (read_step list.now c.at) }
{
    let (kind, next) = number(list, c, 1, 6)?;
    let end = operands(list, next, kind)?;
    let operands_at = next.at;
    Ok((Stage { kind, operands_at }, end))
}

// n steps.
pub fn steps(list: &[u16], start: Cursor, n: usize) -> Result<Cursor, Refused>
    ensures { result ≡ walk_of (repeated n read_step list.now start.at) }
{
    let mut c = start;
    for _ in 0..n {
        (_, c) = step(list, c)?;
    }
    Ok(c)
}

// How many steps, and they.
pub fn counted_steps(list: &[u16], c: Cursor) -> Result<Cursor, Refused>
    ensures { result ≡ walk_of (counted 1 16 read_step list.now c.at) }
{
    let (z, next) = number(list, c, 1, 16)?;
    steps(list, next, z)
}
