// Single numbers of the list of an order, each with the place after it, or the place where the list is refused.
#![tactic(auto)]

ghost use Rattle.std.specs.Prelude.{◌≡◌, get_or};
ghost use Rattle.order.specs.Reader.{allowed};
ghost use Rattle.order.specs.Grammar.{between};
ghost use Rattle.order.specs.Answers.{number_of};

use order::{Cursor, Refused};

// The number at the cursor, or 0 past the end.
pub fn peek(list: &[u16], c: Cursor) -> usize
    ensures { result ≡ get_or list.now c.at 0 }
{
    let at = c.at;
    if at < list.len() {
        list[at] as usize
    } else {
        0
    }
}

// The number at the cursor, which is allowed where ok is true, with the cursor after it.
pub fn accept(list: &[u16], c: Cursor, ok: bool) -> Result<(usize, Cursor), Refused>
    ensures { result ≡ number_of (allowed (λ x. ok) list.now c.at) }
{
    let at = c.at;
    if at < list.len() {
        if ok {
            Ok((peek(list, c), Cursor { at: at + 1 }))
        } else {
            Err(Refused { place: at })
        }
    } else {
        Err(Refused { place: list.len() })
    }
}

// Whether a number is from low to high.
pub fn within(x: usize, low: usize, high: usize) -> bool
    ensures { result ≡ between low high x }
{
    low <= x && x <= high
}

// A number from low to high.
pub fn number(list: &[u16], c: Cursor, low: usize, high: usize) -> Result<(usize, Cursor), Refused>
    ensures { result ≡ number_of (allowed (between low high) list.now c.at) }
{
    accept(list, c, within(peek(list, c), low, high))
}
