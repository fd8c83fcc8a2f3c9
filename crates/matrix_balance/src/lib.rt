// Between questions 6 and 7 of step 6, CROSS (02, K6): does each column of every matrix that serves a sheet column hold each value M ÷ p times?
// The matrices are read where they stand in the list. The counters are made once for the step, and are zero again after each even column.
#![tactic(auto)]

ghost use Rattle.std.specs.Prelude.{◌≡◌, true, ℕ, ◌<◌, ltb};
ghost use Rattle.galois.specs.Arithmetic.{member};
ghost use Rattle.counting.specs.Verdict.{deviation};
ghost use Rattle.step_tables.specs.Lists.{all_of};
ghost use Rattle.step_tables.specs.Cross.{value_times, matrix_fault, served_fault, serving_fault};
ghost use Rattle.ingredients.specs.Standing.{MatrixStands};
ghost use Rattle.layout.specs.Step.{Readable};
ghost use Rattle.sum_bytes.specs.Summing.{placed_matrix, matrix_at, matrices_at};
ghost use Rattle.tally.specs.Tally.{Cleared, Tallied, as_deviation};
ghost use Rattle.matrix_balance.specs.Balance.{found_in, balance_of};

use sum_bytes::MatrixPlace;
use sum_operands::matrix_named;
use tally::{Deviation, first_deviation};

// A serving matrix with an uneven column, by its number in the list; the lowest such column, from 1, and the lowest value
// in it.
#[derive(Clone, Copy)]
pub struct Unevenness {
    pub ingredient: usize,
    pub column: usize,
    pub value: usize,
}

// An uneven column of one matrix: the column, from 0, and a value in it.
#[derive(Clone, Copy)]
struct UnevenColumn {
    column: usize,
    value: usize,
}

// The first of the matrices d1 .. dr that serves a column of the sheet and is uneven, or `None` where none is.
pub fn first_uneven(list: &[u16], ds: &[u16], levels: &[u8]) -> Option<Unevenness>
    requires readable { Readable list.now }
    requires ds_value { all_of (λ d. ltb 0 (matrix_at list.now d).rows) ds.now ≡ true }
    ensures { result ≡ balance_of ds.now (serving_fault (matrices_at list.now ds.now) levels.now) }
{
    let mut counters = [0u16; 4096];
    for d in ds {
        let ingredient = *d as usize;
        let m = matrix_named(list, ingredient);
        if let Some(uneven) = serving_column(list, m, levels, &mut counters) {
            return Some(Unevenness {
                ingredient,
                column: uneven.column + 1,
                value: uneven.value,
            });
        }
    }
    None
}

// The lowest uneven column of a matrix that serves the sheet. One that serves none of its columns is not asked.
fn serving_column(
    list: &[u16],
    m: MatrixPlace,
    levels: &[u8],
    counters: &mut [u16],
) -> Option<UnevenColumn>
    requires matrix_stands { MatrixStands list.now m.rows m.columns m.p m.start }
    requires cleared { Cleared counters.old }
    ensures by_index { (q : ℕ) → found_in q result ≡ served_fault levels.now q (placed_matrix list.now m) }
    ensures cleared_2 { result ≡ None → Cleared counters.new }
{
    if !serves(levels, m.p) {
        return None;
    }
    uneven_column(list, m, counters)
}

// Whether p is one of the level counts.
fn serves(levels: &[u8], p: usize) -> bool
    ensures { result ≡ member p levels.now }
{
    levels.iter().any(|s| *s as usize == p)
}

// The lowest uneven column of a matrix, and the lowest value in it.
fn uneven_column(list: &[u16], m: MatrixPlace, counters: &mut [u16]) -> Option<UnevenColumn>
    requires matrix_stands { MatrixStands list.now m.rows m.columns m.p m.start }
    requires cleared { Cleared counters.old }
    ensures by_index { (q : ℕ) → found_in q result ≡ matrix_fault q (placed_matrix list.now m) }
    ensures cleared_2 { result ≡ None → Cleared counters.new }
{
    for column in 0..m.columns {
        if let Some(deviation) = column_deviation(list, m, column, counters) {
            return Some(UnevenColumn {
                column,
                value: deviation.value,
            });
        }
    }
    None
}

// The lowest of the p values that does not stand in the p-th part of the rows of one column.
fn column_deviation(
    list: &[u16],
    m: MatrixPlace,
    column: usize,
    counters: &mut [u16],
) -> Option<Deviation>
    requires matrix_stands { MatrixStands list.now m.rows m.columns m.p m.start }
    requires column_lt_columns { column < m.columns }
    requires cleared { Cleared counters.old }
    ensures value { result ≡ as_deviation (deviation m.p m.rows (value_times (placed_matrix list.now m) column)) }
    ensures cleared_2 { result ≡ None → Cleared counters.new }
{
    tally_values(list, m, column, counters);
    first_deviation(counters, m.p, m.rows)
}

// Counts the rows of a matrix by their value in one column.
fn tally_values(list: &[u16], m: MatrixPlace, column: usize, counters: &mut [u16])
    requires matrix_stands { MatrixStands list.now m.rows m.columns m.p m.start }
    requires column_lt_columns { column < m.columns }
    requires cleared { Cleared counters.old }
    ensures { Tallied counters.new m.rows (λ y. (placed_matrix list.now m).entry y column) }
{
    for row in 0..m.rows {
        let value = list[m.start + row * m.columns + column] as usize;
        counters[value] += 1;
    }
}
