// Step 3, SUM r, d1 .. dr, k: the questions in turn, and then the sheet.
#![tactic(auto)]

ghost use Rattle.std.specs.Prelude.{◌≤◌, ◌<◌, length, get_or};
ghost use Rattle.counting.specs.Table.{columns as columns_of};
ghost use Rattle.ingredients.specs.Named.{table_in, some_table, Legible};
ghost use Rattle.sheets.specs.Steps.{sum as SUM, sized, operate};
ghost use Rattle.layout.specs.Bytes.{Zeros, sheet_in};
ghost use Rattle.layout.specs.Step.{Stands, Ready, later_in, Left};
ghost use Rattle.sum_bytes.specs.Summing.{matrix_at, matrices_at, EntriesStand, next_sheet, Adjoins};

use ingredients::named::NamedTable;
use layout::Size;
use sheets::answer::{Answer, Refusal};
use spare::sheet_answer;
use sum_operands::{matrix_named, summands};
use sum_questions::parts_fit;
use summed_sheet::{build, summed_columns};
use table_sizes::column_count;

// Question 8, and then the sheet: is it at most 512 runs and 128 columns?
fn sized_sum(
    list: &[u16],
    number: usize,
    entries: &[u16],
    widths: &[u8],
    rows: usize,
    k: NamedTable,
    size: Size,
    table: &mut [u8],
    levels: &mut [u8],
    scratch: &mut [u8],
) -> Answer
    requires ready { Ready list.now size table.old levels.old scratch.old }
    requires entries_stand { EntriesStand list.now rows entries.now widths.now × (rows ≤ 512) }
    requires legible { Legible list.now k × Adjoins (table_in list.now k) rows × (columns_of (table_in list.now k) ≤ 128) }
    ensures left { Left (sized number (next_sheet list.now entries.now widths.now rows k size table.old levels.old)) table.old levels.old result table.new levels.new }
    ensures zeros { Zeros scratch.new }
{
    let runs = size.runs * rows;
    let m = size.columns;
    let columns = summed_columns(&levels[..m], widths) + column_count(list, k);
    if 512 < runs || 128 < columns {
        return Answer::Refused(Refusal::TooLarge {
            step: number,
            runs,
            columns,
        });
    }
    build(list, entries, widths, rows, k, size, table, levels, scratch);
    sheet_answer(runs, columns, levels)
}

// Question 6, and then question 8. M is the rows of the first matrix.
fn fitting_sum(
    list: &[u16],
    number: usize,
    ds: &[u16],
    k: NamedTable,
    size: Size,
    table: &mut [u8],
    levels: &mut [u8],
    scratch: &mut [u8],
) -> Answer
    requires ready { Ready list.now size table.old levels.old scratch.old }
    requires ds_nonzero { (0 < length ds.now) × (0 < (matrix_at list.now (get_or ds.now 0 0)).rows) }
    requires legible { Legible list.now k × (columns_of (table_in list.now k) ≤ 128) }
    ensures left { Left (operate number (sheet_in table.old levels.old size) (SUM (matrices_at list.now ds.now) (some_table list.now k))) table.old levels.old result table.new levels.new }
    ensures zeros { Zeros scratch.new }
{
    let first = matrix_named(list, ds[0] as usize);
    let rows = first.rows;
    let m = size.columns;
    let mut entries = [0u16; 65];
    let mut widths = [0u8; 65];
    if !parts_fit(list, ds, rows, k, &levels[..m], &mut entries, &mut widths) {
        return Answer::Refused(Refusal::PartsDoNotFit { step: number });
    }
    sized_sum(
        list, number, &entries, &widths, rows, k, size, table, levels, scratch,
    )
}

// Question 5, and then question 6: does each named ingredient exist with the kind wanted? The operands are r, d1 .. dr, k; only k may be 0, for none.
pub fn sum(
    list: &[u16],
    at: usize,
    number: usize,
    size: Size,
    table: &mut [u8],
    levels: &mut [u8],
    scratch: &mut [u8],
) -> Answer
    requires stands { Stands list.now 3 at }
    requires ready { Ready list.now size table.old levels.old scratch.old }
    ensures left { Left (later_in list.now number (sheet_in table.old levels.old size) 3 at) table.old levels.old result table.new levels.new }
    ensures zeros { Zeros scratch.new }
{
    let Some(k) = summands(list, at) else {
        return Answer::Refused(Refusal::StepNotAllowed { step: number });
    };
    let start = at + 1;
    let end = start + list[at] as usize;
    fitting_sum(
        list,
        number,
        &list[start..end],
        k,
        size,
        table,
        levels,
        scratch,
    )
}
