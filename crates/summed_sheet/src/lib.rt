// The sheet that step 3, SUM r, d1 .. dr, k, leaves: each run of the sheet with each row of the matrices, and k's columns adjoined. It is built in
// the scratch, run by run.
#![tactic(auto)]

ghost use Rattle.std.specs.Prelude.{◌≡◌, ◌+◌, ◌*◌, ◌≤◌, length, replicate};
ghost use mathlib.Core.List.{◌++◌, flat_map};
ghost use Rattle.finite.specs.Lists.{from, AllBelow};
ghost use Rattle.buffers.specs.Put.{Put};
ghost use Rattle.ingredients.specs.Named.{table_in, Legible};
ghost use Rattle.step_tables.specs.Sheet.{SmallEnough};
ghost use Rattle.sum_tables.specs.Tables.{FieldTables};
ghost use Rattle.layout.specs.Bytes.{Holds, Zeros};
ghost use Rattle.layout.specs.Step.{Ready};
ghost use Rattle.sum_bytes.specs.Summing.{EntriesStand, SheetStands, summed_levels, built_run, next_sheet, Adjoins};

use buffers::put_byte;
use ingredients::named::NamedTable;
use layout::Size;
use settling::settle;
use sum_tables::field_tables;
use summed_run::put_summed_run;
use table_putting::{put_level_counts, put_run};

// How many summed columns there are.
pub fn summed_columns(levels: &[u8], widths: &[u8]) -> usize
    requires { AllBelow (length widths.now) levels.now × (length levels.now ≤ 128) }
    ensures value { result ≡ length (summed_levels widths.now levels.now) }
    ensures upper_bound { result ≤ 255 * length levels.now }
{
    levels.iter().map(|s| widths[*s as usize] as usize).sum()
}

// The runs of the next sheet: each sheet run with each matrix row, and the adjoined table's run of that row.
fn put_runs(
    buf: &mut [u8],
    list: &[u16],
    entries: &[u16],
    widths: &[u8],
    rows: usize,
    k: NamedTable,
    runs: usize,
    table: &[u8],
    levels: &[u8],
    sums: &[u8],
) -> usize
    requires entries_stand { EntriesStand list.now rows entries.now widths.now }
    requires sheet_stands { SheetStands table.now levels.now runs }
    requires legible { Legible list.now k × Adjoins (table_in list.now k) rows }
    requires rows_bound { (runs * rows ≤ 512) × (length (flat_map (built_run list.now entries.now widths.now rows (table_in list.now k) table.now levels.now) (from 0 (runs * rows))) ≤ length buf.old) }
    requires field_tables { FieldTables widths.now 10 sums.now }
    ensures { Put buf.old 0 (flat_map (built_run list.now entries.now widths.now rows (table_in list.now k) table.now levels.now) (from 0 (runs * rows))) buf.new result }
{
    let total = runs * rows;
    let mut place = 0;
    for r in 0..total {
        let row = r % rows;
        let start = r / rows * levels.len();
        let end = start + levels.len();
        place = put_summed_run(
            buf,
            place,
            list,
            entries,
            widths,
            row,
            levels,
            &table[start..end],
            sums,
        );
        place = put_run(list, k, row, buf, place);
    }
    place
}

// A byte some times over.
fn put_repeated(buf: &mut [u8], at: usize, byte: u8, times: usize) -> usize
    requires { at + times ≤ length buf.old }
    ensures { Put buf.old at (replicate times byte) buf.new result }
{
    let end = at + times;
    buf[at..end].fill(byte);
    end
}

// The level counts of the summed columns.
fn put_summed_levels(buf: &mut [u8], at: usize, levels: &[u8], widths: &[u8]) -> usize
    requires all_below { AllBelow (length widths.now) levels.now }
    requires levels_in_bounds { at + length (summed_levels widths.now levels.now) ≤ length buf.old }
    ensures { Put buf.old at (summed_levels widths.now levels.now) buf.new result }
{
    let mut place = at;
    for s in levels {
        place = put_repeated(buf, place, *s, widths[*s as usize] as usize);
    }
    place
}

// The level counts of the next sheet.
fn put_levels(buf: &mut [u8], list: &[u16], k: NamedTable, levels: &[u8], widths: &[u8]) -> usize
    requires legible { Legible list.now k }
    requires all_below { AllBelow (length widths.now) levels.now }
    requires k_in_bounds { length (summed_levels widths.now levels.now ++ (table_in list.now k).levels) ≤ length buf.old }
    ensures { Put buf.old 0 (summed_levels widths.now levels.now ++ (table_in list.now k).levels) buf.new result }
{
    let place = put_summed_levels(buf, 0, levels, widths);
    put_level_counts(list, k, buf, place)
}

// Builds the next sheet in the scratch, and puts it in the place of the sheet in hand.
pub fn build(
    list: &[u16],
    entries: &[u16],
    widths: &[u8],
    rows: usize,
    k: NamedTable,
    size: Size,
    table: &mut [u8],
    levels: &mut [u8],
    scratch: &mut [u8],
)
    requires ready { Ready list.now size table.old levels.old scratch.old }
    requires entries_stand { EntriesStand list.now rows entries.now widths.now }
    requires legible { Legible list.now k × Adjoins (table_in list.now k) rows }
    requires small_enough { SmallEnough (next_sheet list.now entries.now widths.now rows k size table.old levels.old) }
    ensures holds { Holds (next_sheet list.now entries.now widths.now rows k size table.old levels.old) table.new levels.new }
    ensures zeros { Zeros scratch.new }
{
    let runs = size.runs;
    let m = size.columns;
    let used = runs * m;
    let sums = field_tables(widths);
    let built = put_runs(
        scratch,
        list,
        entries,
        widths,
        rows,
        k,
        runs,
        table,
        &levels[..m],
        &sums,
    );
    let mut counts = [0u8; 128];
    let columns = put_levels(&mut counts, list, k, &levels[..m], widths);
    settle(used, m, built, &counts[..columns], table, levels, scratch);
}
