// Series of numbers of the list of an order: the place after them, or the place where the list is refused.
#![tactic(auto)]

ghost use Rattle.std.specs.Prelude.{◌≡◌, ◌-◌, length};
ghost use Rattle.order.specs.Reader.{allowed, numbers, repeated};
ghost use Rattle.order.specs.Grammar.{between};
ghost use Rattle.order.specs.Answers.{walk_of};

use list_numbers::number;
use order::{Cursor, Refused};

// How many numbers stand from a place on.
fn remaining(list: &[u16], at: usize) -> usize
    ensures { result ≡ length list.now - at }
{
    if at < list.len() { list.len() - at } else { 0 }
}

// n numbers of any size.
pub fn skip(list: &[u16], c: Cursor, n: usize) -> Result<Cursor, Refused>
    ensures { result ≡ walk_of (numbers n list.now c.at) }
{
    let at = c.at;
    if n <= remaining(list, at) {
        Ok(Cursor { at: at + n })
    } else {
        Err(Refused { place: list.len() })
    }
}

// n numbers from low to high.
pub fn series(
    list: &[u16],
    start: Cursor,
    n: usize,
    low: usize,
    high: usize,
) -> Result<Cursor, Refused>
    ensures { result ≡ walk_of (repeated n (allowed (between low high)) list.now start.at) }
{
    let mut c = start;
    for _ in 0..n {
        (_, c) = number(list, c, low, high)?;
    }
    Ok(c)
}
