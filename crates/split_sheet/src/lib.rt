// The sheet that step 5, SPLIT c, i, leaves: column c gives way, in its place, to the columns of table i, in which the column's level is the row,
// from 0. Columns count from 0 here.
#![tactic(auto)]

ghost use Rattle.std.specs.Prelude.{ℕ, ◌+◌, ◌-◌, ◌*◌, ◌≤◌, ◌<◌, length, get_or};
ghost use Rattle.buffers.specs.Put.{Put};
ghost use Rattle.counting.specs.Table.{columns};
ghost use Rattle.step_tables.specs.Sheet.{SmallEnough};
ghost use Rattle.step_tables.specs.Split.{SplitFits, split_step};
ghost use Rattle.ingredients.specs.Named.{table_in, Legible};
ghost use Rattle.layout.specs.Bytes.{Zeros, Holds, sheet_in};
ghost use Rattle.layout.specs.Step.{Ready};
ghost use Rattle.split_sheet.specs.Splitting.{give_way, split_run, split_runs};

use buffers::put_bytes;
use ingredients::named::NamedTable;
use layout::Size;
use settling::settle;
use table_putting::{put_level_counts, put_run};

// Puts the level counts of the next sheet: those before the column, the table's, and those after the column.
fn put_split_levels(
    list: &[u16],
    named: NamedTable,
    c: usize,
    levels: &[u8],
    buf: &mut [u8],
) -> usize
    requires legible { Legible list.now named }
    requires c_in_bounds { c < length levels.now }
    requires named_in_bounds { length levels.now - 1 + columns (table_in list.now named) ≤ length buf.old }
    ensures { Put buf.old 0 (give_way c levels.now (table_in list.now named).levels) buf.new result }
{
    let mut place = put_bytes(buf, 0, &levels[..c]);
    place = put_level_counts(list, named, buf, place);
    put_bytes(buf, place, &levels[c + 1..])
}

// Puts a run of the next sheet: the levels before the column, the row of the table that the column's level is, and the levels after the column.
fn put_split_run(
    list: &[u16],
    named: NamedTable,
    c: usize,
    run: &[u8],
    buf: &mut [u8],
    at: usize,
) -> usize
    requires legible { Legible list.now named }
    requires c_in_bounds { (c < length run.now) × (get_or run.now c 0 < (table_in list.now named).runs) }
    requires named_in_bounds { at + (length run.now - 1 + columns (table_in list.now named)) ≤ length buf.old }
    ensures { Put buf.old at (split_run c (table_in list.now named) run.now) buf.new result }
{
    let row = run[c] as usize;
    let mut place = put_bytes(buf, at, &run[..c]);
    place = put_run(list, named, row, buf, place);
    put_bytes(buf, place, &run[c + 1..])
}

// Puts all runs of the next sheet, one after the other.
fn put_split_runs(
    list: &[u16],
    named: NamedTable,
    c: usize,
    size: Size,
    table: &[u8],
    buf: &mut [u8],
) -> usize
    requires legible { Legible list.now named }
    requires c_lt_columns { (c < size.columns) × (size.runs * size.columns ≤ length table.now) }
    requires by_index { (r : ℕ) → r < size.runs → get_or table.now (r * size.columns + c) 0 < (table_in list.now named).runs }
    requires named_in_bounds { size.runs * (size.columns - 1 + columns (table_in list.now named)) ≤ length buf.old }
    ensures { Put buf.old 0 (split_runs c (table_in list.now named) table.now size.columns size.runs) buf.new result }
{
    let runs = size.runs;
    let width = size.columns;
    let mut place = 0;
    for run in 0..runs {
        let start = run * width;
        let row = &table[start..start + width];
        place = put_split_run(list, named, c, row, buf, place);
    }
    place
}

// Builds the next sheet in the scratch and settles it.
pub fn split_column(
    list: &[u16],
    named: NamedTable,
    c: usize,
    size: Size,
    table: &mut [u8],
    levels: &mut [u8],
    scratch: &mut [u8],
)
    requires ready { Ready list.now size table.old levels.old scratch.old }
    requires legible { Legible list.now named }
    requires split_fits { SplitFits c (table_in list.now named) (sheet_in table.old levels.old size) }
    requires small_enough { SmallEnough (split_step c (table_in list.now named) (sheet_in table.old levels.old size)) }
    ensures holds { Holds (split_step c (table_in list.now named) (sheet_in table.old levels.old size)) table.new levels.new }
    ensures zeros { Zeros scratch.new }
{
    let runs = size.runs;
    let width = size.columns;
    let mut counts = [0u8; 128];
    let count = put_split_levels(list, named, c, &levels[..width], &mut counts);
    let built = put_split_runs(list, named, c, size, table, scratch);
    settle(
        runs * width,
        width,
        built,
        &counts[..count],
        table,
        levels,
        scratch,
    );
}
