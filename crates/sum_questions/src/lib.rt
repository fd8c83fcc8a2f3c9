// Question 6 of step 3, SUM r, d1 .. dr, k: do the parts fit? Step 6, CROSS, is asked the same of the operands with which it begins (02, K6).
// The matrices are read where they stand in the list. For each p two arrays of 65 places, made once for the step, hold where the entries of the
// matrix that serves p start in the list and how many columns it has, 0 for none.
#![tactic(auto)]

ghost use Rattle.std.specs.Prelude.{◌≡◌, true, ◌<◌, eqb, ltb, length, get_or};
ghost use Rattle.finite.specs.Lists.{AllBelow};
ghost use Rattle.ingredients.specs.Named.{some_table, Legible};
ghost use Rattle.step_tables.specs.Lists.{all_of};
ghost use Rattle.step_tables.specs.Sum.{adjoined_table};
ghost use Rattle.layout.specs.Bytes.{zeros};
ghost use Rattle.layout.specs.Step.{Readable};
ghost use Rattle.sum_bytes.specs.Summing.{matrices_at, fit_together, parts_fit, Serves};

use ingredients::named::NamedTable;
use sum_operands::{is_missing, matrix_named};
use table_sizes::run_count;

// Question 6, of the matrices alone: whether each has so many rows and a p of its own. Each is entered into the arrays at its p.
fn serve(list: &[u16], ds: &[u16], rows: usize, entries: &mut [u16], widths: &mut [u8]) -> bool
    requires readable { Readable list.now }
    requires rows_nonzero { 0 < rows }
    requires entries_value { (entries.old ≡ zeros 65) × (widths.old ≡ zeros 65) }
    ensures value { result ≡ fit_together rows (matrices_at list.now ds.now) }
    ensures serves { result ≡ true
        → Serves list.now (matrices_at list.now ds.now) rows entries.new widths.new }
{
    for d in ds {
        let named = matrix_named(list, *d as usize);
        if named.rows != rows {
            return false;
        }
        let p = named.p;
        if widths[p] != 0 {
            return false;
        }
        entries[p] = named.start as u16;
        widths[p] = named.columns as u8;
    }
    true
}

// Whether every level count of the sheet is served.
fn all_served(levels: &[u8], widths: &[u8]) -> bool
    requires { AllBelow (length widths.now) levels.now }
    ensures { result ≡ all_of (λ s. ltb 0 (get_or widths.now s 0)) levels.now }
{
    levels.iter().all(|s| widths[*s as usize] != 0)
}

// Question 6, of k alone: whether it has a run for each row of the matrices, or there is none.
fn adjoins(list: &[u16], k: NamedTable, rows: usize) -> bool
    requires { Legible list.now k }
    ensures { result ≡ eqb (adjoined_table rows (some_table list.now k)).runs rows }
{
    if is_missing(k) {
        return true;
    }
    run_count(list, k) == rows
}

// Question 6: do the parts fit? The matrices are entered into the arrays on the way.
pub fn parts_fit(
    list: &[u16],
    ds: &[u16],
    rows: usize,
    k: NamedTable,
    levels: &[u8],
    entries: &mut [u16],
    widths: &mut [u8],
) -> bool
    requires readable { Readable list.now × (0 < rows) × Legible list.now k }
    requires all_below { AllBelow 65 levels.now }
    requires entries_value { (entries.old ≡ zeros 65) × (widths.old ≡ zeros 65) }
    ensures value { result ≡ parts_fit rows (matrices_at list.now ds.now) (adjoined_table rows (some_table list.now k)) levels.now }
    ensures serves { result ≡ true
        → Serves list.now (matrices_at list.now ds.now) rows entries.new widths.new }
{
    if !serve(list, ds, rows, entries, widths) {
        return false;
    }
    if !all_served(levels, widths) {
        return false;
    }
    adjoins(list, k, rows)
}
