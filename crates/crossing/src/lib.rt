// Step 6, CROSS r, d1 .. dr, k, h (02, K6): the questions in turn, and then the sheet. It is asked what SUM is asked, and more.
#![tactic(auto)]

ghost use Rattle.std.specs.Prelude.{◌≡◌, true, ◌≤◌, ◌<◌, ltb, length};
ghost use Rattle.counting.specs.Table.{columns as columns_of};
ghost use Rattle.ingredients.specs.Named.{table_in, some_table, Legible};
ghost use Rattle.step_tables.specs.Lists.{all_of};
ghost use Rattle.sheets.specs.Steps.{cross as CROSS, sized, operate};
ghost use Rattle.layout.specs.Bytes.{Zeros, sheet_in};
ghost use Rattle.layout.specs.Step.{Stands, Ready, later_in, Left};
ghost use Rattle.sum_bytes.specs.Summing.{matrix_at, matrices_at, EntriesStand, next_sheet, Adjoins};
ghost use Rattle.crossed_sheet.specs.Crossing.{crossed_sheet};

use crossed_sheet::put_beside;
use ingredients::named::{NamedTable, table_named};
use layout::Size;
use matrix_balance::{Unevenness, first_uneven};
use sheets::answer::{Answer, Refusal};
use spare::sheet_answer;
use sum_operands::{is_missing, matrix_named, summands};
use sum_questions::parts_fit;
use summed_sheet::{build, summed_columns};
use table_sizes::{column_count, run_count};

// Question 8, and then the sheet: the one that SUM leaves, and h's columns after its own. Nothing looks at the spare of the sheet in between.
fn sized_cross(
    list: &[u16],
    number: usize,
    entries: &[u16],
    widths: &[u8],
    rows: usize,
    k: NamedTable,
    h: NamedTable,
    size: Size,
    table: &mut [u8],
    levels: &mut [u8],
    scratch: &mut [u8],
) -> Answer
    requires ready { Ready list.now size table.old levels.old scratch.old }
    requires entries_stand { EntriesStand list.now rows entries.now widths.now × (rows ≤ 512) }
    requires legible { Legible list.now k × Adjoins (table_in list.now k) rows × (columns_of (table_in list.now k) ≤ 128) }
    requires legible_2 { Legible list.now h × ((table_in list.now h).runs ≡ size.runs) × (columns_of (table_in list.now h) ≤ 128) }
    ensures left { Left (sized number (crossed_sheet rows (table_in list.now h) (next_sheet list.now entries.now widths.now rows k size table.old levels.old))) table.old levels.old result table.new levels.new }
    ensures zeros { Zeros scratch.new }
{
    let runs = size.runs * rows;
    let m = size.columns;
    let summed = summed_columns(&levels[..m], widths) + column_count(list, k);
    let columns = summed + column_count(list, h);
    if 512 < runs || 128 < columns {
        return Answer::Refused(Refusal::TooLarge {
            step: number,
            runs,
            columns,
        });
    }
    build(list, entries, widths, rows, k, size, table, levels, scratch);
    let sums = Size {
        runs,
        columns: summed,
        spare: 0,
    };
    put_beside(list, h, rows, sums, table, levels, scratch);
    sheet_answer(runs, columns, levels)
}

// Question 6, then that of 02, K6, and then question 8. M is the rows of the first matrix.
fn fitting_cross(
    list: &[u16],
    number: usize,
    ds: &[u16],
    k: NamedTable,
    h: NamedTable,
    size: Size,
    table: &mut [u8],
    levels: &mut [u8],
    scratch: &mut [u8],
) -> Answer
    requires ready { Ready list.now size table.old levels.old scratch.old }
    requires ds_nonzero { (0 < length ds.now) × (all_of (λ d. ltb 0 (matrix_at list.now d).rows) ds.now ≡ true) }
    requires legible { Legible list.now k × (columns_of (table_in list.now k) ≤ 128) }
    requires legible_2 { Legible list.now h × (columns_of (table_in list.now h) ≤ 128) }
    ensures left { Left (operate number (sheet_in table.old levels.old size) (CROSS ds.now (matrices_at list.now ds.now) (some_table list.now k) (table_in list.now h))) table.old levels.old result table.new levels.new }
    ensures zeros { Zeros scratch.new }
{
    let not_fitting = Answer::Refused(Refusal::PartsDoNotFit { step: number });
    let first = matrix_named(list, ds[0] as usize);
    let rows = first.rows;
    let m = size.columns;
    let mut entries = [0u16; 65];
    let mut widths = [0u8; 65];
    if !parts_fit(list, ds, rows, k, &levels[..m], &mut entries, &mut widths) {
        return not_fitting;
    }
    if run_count(list, h) != size.runs {
        return not_fitting;
    }
    match first_uneven(list, ds, &levels[..m]) {
        Some(
            Unevenness {
                ingredient,
                column,
                value,
            },
        ) => Answer::Refused(Refusal::UnevenValue {
            step: number,
            ingredient,
            column,
            value,
        }),
        None => sized_cross(
            list, number, &entries, &widths, rows, k, h, size, table, levels, scratch,
        ),
    }
}

// Question 5, and then question 6: does each named ingredient exist with the kind wanted? The operands are r, d1 .. dr, k, h; only k may be 0, for none.
pub fn cross(
    list: &[u16],
    at: usize,
    number: usize,
    size: Size,
    table: &mut [u8],
    levels: &mut [u8],
    scratch: &mut [u8],
) -> Answer
    requires stands { Stands list.now 6 at }
    requires ready { Ready list.now size table.old levels.old scratch.old }
    ensures left { Left (later_in list.now number (sheet_in table.old levels.old size) 6 at) table.old levels.old result table.new levels.new }
    ensures zeros { Zeros scratch.new }
{
    let not_allowed = Answer::Refused(Refusal::StepNotAllowed { step: number });
    let Some(k) = summands(list, at) else {
        return not_allowed;
    };
    let start = at + 1;
    let end = start + list[at] as usize;
    let h = table_named(list, list[end + 1] as usize);
    if is_missing(h) {
        return not_allowed;
    }
    fitting_cross(
        list,
        number,
        &list[start..end],
        k,
        h,
        size,
        table,
        levels,
        scratch,
    )
}
