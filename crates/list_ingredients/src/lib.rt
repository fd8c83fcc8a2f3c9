// Reads the ingredients of an order: each up to its entries, which are passed over at once.
#![tactic(auto)]

ghost use Rattle.std.specs.Prelude.{◌≡◌, ◌+◌, ◌≤◌};
ghost use Rattle.order.specs.Reader.{repeated};
ghost use Rattle.order.specs.Grammar.{counted, table_body, matrix_body, generator_body, body, most_rows, read_ingredient};
ghost use Rattle.order.specs.Answers.{spot_of, walk_of};

use ingredient_numbers::{field_size, most_rows, widths};
use list_numbers::number;
use list_series::{series, skip};
use order::{Cursor, Located, Refused};

// A table, from its level counts on.
fn table_body(
    list: &[u16],
    from: Cursor,
    rows: usize,
    columns: usize,
) -> Result<(Located, Cursor), Refused>
    requires { (rows ≤ 512) × (columns ≤ 128) }
    ensures { result ≡ spot_of from.at (table_body rows columns list.now from.at) }
{
    let next = series(list, from, columns, 2, 64)?;
    let end = skip(list, next, rows * columns)?;
    let table = Located::Table {
        rows,
        columns,
        levels_at: from.at,
        entries_at: next.at,
    };
    Ok((table, end))
}

// A difference matrix, from its p on.
fn matrix_body(
    list: &[u16],
    from: Cursor,
    rows: usize,
    columns: usize,
) -> Result<(Located, Cursor), Refused>
    requires { (rows ≤ 512) × (columns ≤ 128) }
    ensures { result ≡ spot_of from.at (matrix_body rows columns list.now from.at) }
{
    let (p, next) = number(list, from, 2, 64)?;
    let end = skip(list, next, rows * columns)?;
    let matrix = Located::Matrix {
        rows,
        columns,
        p,
        entries_at: next.at,
    };
    Ok((matrix, end))
}

// A generator of t rows and n factors, from its field's size on.
fn generator_body(
    list: &[u16],
    from: Cursor,
    t: usize,
    n: usize,
) -> Result<(Located, Cursor), Refused>
    requires { (t ≤ 9) × (n ≤ 128) }
    ensures { result ≡ spot_of from.at (generator_body t n list.now from.at) }
{
    let (s, first) = field_size(list, from, t)?;
    let (width, next) = widths(list, first, n, s)?;
    let end = skip(list, next, t * width)?;
    let generator = Located::Generator {
        t,
        n,
        s,
        widths_at: first.at,
        width,
        entries_at: next.at,
    };
    Ok((generator, end))
}

// An ingredient from the number after its rows and columns on.
fn kind_body(
    list: &[u16],
    from: Cursor,
    kind: usize,
    rows: usize,
    columns: usize,
) -> Result<(Located, Cursor), Refused>
    requires { ((kind ≤ 3) × (1 ≤ kind)) × ((rows ≤ most_rows kind) × (columns ≤ 128)) }
    ensures { result ≡ spot_of from.at (body kind rows columns list.now from.at) }
{
    match kind {
        1 => table_body(list, from, rows, columns),
        2 => matrix_body(list, from, rows, columns),
        _ => generator_body(list, from, rows, columns),
    }
}

// The ingredient at the cursor.
pub fn ingredient(list: &[u16], c: Cursor) -> Result<(Located, Cursor), Refused>
    ensures { result ≡ spot_of (c.at + 3) (read_ingredient list.now c.at) }
{
    let (kind, after_kind) = number(list, c, 1, 3)?;
    let (rows, after_rows) = number(list, after_kind, 1, most_rows(kind))?;
    let (columns, from) = number(list, after_rows, 1, 128)?;
    kind_body(list, from, kind, rows, columns)
}

// n ingredients.
pub fn ingredients(list: &[u16], start: Cursor, n: usize) -> Result<Cursor, Refused>
    ensures { result ≡ walk_of (repeated n read_ingredient list.now start.at) }
{
    let mut c = start;
    for _ in 0..n {
        (_, c) = ingredient(list, c)?;
    }
    Ok(c)
}

// How many ingredients, and they.
pub fn counted_ingredients(list: &[u16]) -> Result<Cursor, Refused>
    ensures { result ≡ walk_of (counted 0 32 read_ingredient list.now 0) }
{
    let (q, next) = number(list, Cursor { at: 0 }, 0, 32)?;
    ingredients(list, next, q)
}
