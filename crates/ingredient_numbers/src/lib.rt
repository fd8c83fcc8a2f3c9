// Numbers of an ingredient: the limit on its rows, and those that only a generator has, the size of its field and the widths of its factors.
#![tactic(auto)]

ghost use Rattle.std.specs.Prelude.{◌≡◌, ◌≤◌};
ghost use Rattle.order.specs.Reader.{allowed, repeated};
ghost use Rattle.order.specs.Grammar.{most_rows, generator_field, factor_width};
ghost use Rattle.order.specs.Answers.{number_of, total_of};

use finite::power;
use list_numbers::{accept, peek};
use order::{Cursor, Refused};

// The limit on rows.
pub fn most_rows(kind: usize) -> usize
    ensures { result ≡ most_rows kind }
{
    if kind == 3 { 9 } else { 512 }
}

// Whether s is the size of a field, with s^t at most 512.
fn is_field_size(t: usize, s: usize) -> bool
    requires { t ≤ 9 }
    ensures { result ≡ generator_field t s }
{
    if s < 2 {
        return false;
    }
    if 9 < s {
        return false;
    }
    if s == 6 {
        return false;
    }
    power(s, t) <= 512
}

// The size of a field for a generator of t rows.
pub fn field_size(list: &[u16], c: Cursor, t: usize) -> Result<(usize, Cursor), Refused>
    requires { t ≤ 9 }
    ensures { result ≡ number_of (allowed (generator_field t) list.now c.at) }
{
    accept(list, c, is_field_size(t, peek(list, c)))
}

// Whether u is a width: at least 1, with s^u at most 64, which no u over 6 has.
fn is_width(s: usize, u: usize) -> bool
    requires { (2 ≤ s) × (s ≤ 9) }
    ensures { result ≡ factor_width s u }
{
    if u < 1 {
        return false;
    }
    if 6 < u {
        return false;
    }
    power(s, u) <= 64
}

// The width of a factor over a field of s elements.
fn factor_width(list: &[u16], c: Cursor, s: usize) -> Result<(usize, Cursor), Refused>
    requires { (2 ≤ s) × (s ≤ 9) }
    ensures { result ≡ number_of (allowed (factor_width s) list.now c.at) }
{
    accept(list, c, is_width(s, peek(list, c)))
}

// The widths of n factors over a field of s elements, and their sum.
pub fn widths(list: &[u16], start: Cursor, n: usize, s: usize) -> Result<(usize, Cursor), Refused>
    requires { ((2 ≤ s) × (s ≤ 9)) × (n ≤ 128) }
    ensures { result ≡ total_of (repeated n (allowed (factor_width s)) list.now start.at) }
{
    let mut c = start;
    let mut sum = 0;
    for _ in 0..n {
        let (width, next) = factor_width(list, c, s)?;
        sum += width;
        c = next;
    }
    Ok((sum, c))
}
