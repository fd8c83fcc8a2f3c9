// Question 3: the first entry that is not below its levels, p or s.
#![tactic(auto)]

ghost use Rattle.std.specs.Prelude.{◌≡◌};
ghost use Rattle.order.specs.Grammar.{read_order};
ghost use Rattle.order.specs.Range.{range_of};
ghost use Rattle.entry_range.specs.Search.{Inside, located_range, scanned};

use ingredient_places::ingredients_start;
use list_ingredients::ingredient;
use order::{Cursor, Located, RangeFault};
use row_limits::{first_high, first_not_below};

// Question 3: is every entry below its levels, p or s?
pub fn first_out_of_range(list: &[u16]) -> Result<(), RangeFault>
    ensures { result ≡ range_of (read_order list.now) }
{
    let (q, next) = ingredients_start(list)?;
    first_out_of_range_among(list, next, q)
}

// The first entry of an ingredient that is out of range.
fn located_range(list: &[u16], what: Located) -> Result<(), RangeFault>
    requires { Inside list.now what }
    ensures { result ≡ located_range list.now what }
{
    match what {
        Located::Table {
            rows,
            columns,
            levels_at,
            entries_at,
        } => {
            let levels_end = levels_at + columns;
            first_high(list, entries_at, rows, &list[levels_at..levels_end])
        }
        Located::Matrix {
            rows,
            columns,
            p,
            entries_at,
        } => first_not_below(list, entries_at, rows, columns, p),
        Located::Generator {
            t,
            n: _,
            s,
            widths_at: _,
            width,
            entries_at,
        } => first_not_below(list, entries_at, t, width, s),
    }
}

// The first entry out of range of n ingredients, the first of which starts at the cursor.
pub fn first_out_of_range_among(list: &[u16], start: Cursor, n: usize) -> Result<(), RangeFault>
    ensures { result ≡ scanned n list.now start.at }
{
    let mut c = start;
    for _ in 0..n {
        let (what, next) = ingredient(list, c)?;
        located_range(list, what)?;
        c = next;
    }
    Ok(())
}
