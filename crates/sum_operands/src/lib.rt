// Question 5 of step 3, SUM r, d1 .. dr, k: does each named ingredient exist with the kind wanted? Step 6, CROSS, begins with the same operands and is
// asked the same of them (02, K6).
#![tactic(auto)]

ghost use Rattle.std.specs.Prelude.{◌≡◌, ltb};
ghost use Rattle.order.specs.Grammar.{read_order};
ghost use Rattle.places.specs.Places.{ingredient_at};
ghost use Rattle.step_tables.specs.Lists.{all_of};
ghost use Rattle.sum_bytes.specs.Summing.{matrix_place, matrix_at, is_missing, SumOperands, summands_of};

use ingredient_places::ingredient_at;
use ingredients::named::{NamedTable, table_named};
use order::Located;
use sum_bytes::MatrixPlace;

// The matrix that a number names.
pub fn matrix_named(list: &[u16], d: usize) -> MatrixPlace
    ensures { result ≡ matrix_place (ingredient_at (read_order list.now) d) }
{
    let none = MatrixPlace {
        rows: 0,
        columns: 0,
        p: 0,
        start: 0,
    };
    match ingredient_at(list, d) {
        Some(
            Located::Matrix {
                rows,
                columns,
                p,
                entries_at: start,
            },
        ) => MatrixPlace {
            rows,
            columns,
            p,
            start,
        },
        _ => none,
    }
}

// Question 5, of d1 .. dr: whether each number names a matrix.
pub fn all_name_matrices(list: &[u16], ds: &[u16]) -> bool
    ensures { result ≡ all_of (λ d. ltb 0 (matrix_at list.now d).rows) ds.now }
{
    ds.iter().all(|d| matrix_named(list, *d as usize).rows != 0)
}

// Whether a number named no table.
pub fn is_missing(table: NamedTable) -> bool
    ensures { result ≡ is_missing table }
{
    match table {
        NamedTable::Own {
            rows: _,
            columns: _,
            levels_at: _,
            entries_at: _,
        } => false,
        NamedTable::House { number: _ } => false,
        NamedTable::Missing => true,
    }
}

// Question 5, of the operands from place `at` on: does each d name a matrix, and k a table? Only k may be 0, for none.
// The answer is what k names, or `None` where a number does not name what it should.
pub fn summands(list: &[u16], at: usize) -> Option<NamedTable>
    requires { SumOperands list.now at }
    ensures { result ≡ summands_of list.now at }
{
    let start = at + 1;
    let end = start + list[at] as usize;
    if !all_name_matrices(list, &list[start..end]) {
        return None;
    }
    let last = list[end] as usize;
    let k = table_named(list, last);
    if last != 0 && is_missing(k) {
        return None;
    }
    Some(k)
}
