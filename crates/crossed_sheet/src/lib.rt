// The sheet that step 6, CROSS, leaves: the one that SUM leaves, which lies in the buffers, with h's columns after its own (02, K6). It is built in
// the scratch, run by run.
#![tactic(auto)]

ghost use Rattle.std.specs.Prelude.{◌≡◌, ◌+◌, ◌*◌, ◌≤◌, length};
ghost use mathlib.Core.List.{◌++◌, flat_map};
ghost use Rattle.finite.specs.Lists.{from};
ghost use Rattle.buffers.specs.Put.{Put};
ghost use Rattle.counting.specs.Table.{columns};
ghost use Rattle.ingredients.specs.Named.{table_in, Legible};
ghost use Rattle.step_tables.specs.Sheet.{SmallEnough};
ghost use Rattle.layout.specs.Bytes.{Holds, Zeros, LongEnough, sheet_in};
ghost use Rattle.crossed_sheet.specs.Crossing.{beside_run, crossed_sheet};

use buffers::put_bytes;
use ingredients::named::NamedTable;
use layout::Size;
use settling::settle;
use table_putting::{put_level_counts, put_run};

// Puts all runs of the next sheet: each of the sheet's, and after it the run of h that belongs to the old run it was made from.
fn put_crossed_runs(
    list: &[u16],
    h: NamedTable,
    rows: usize,
    size: Size,
    table: &[u8],
    buf: &mut [u8],
) -> usize
    requires legible { Legible list.now h × (size.runs ≡ (table_in list.now h).runs * rows) }
    requires columns_in_bounds { size.runs * size.columns ≤ length table.now }
    requires h_in_bounds { size.runs * (size.columns + columns (table_in list.now h)) ≤ length buf.old }
    ensures { Put buf.old 0 (flat_map (beside_run rows (table_in list.now h) table.now size.columns) (from 0 size.runs)) buf.new result }
{
    let runs = size.runs;
    let width = size.columns;
    let mut place = 0;
    for run in 0..runs {
        let old = run / rows;
        let start = run * width;
        place = put_bytes(buf, place, &table[start..start + width]);
        place = put_run(list, h, old, buf, place);
    }
    place
}

// Puts the level counts of the next sheet: the sheet's, and then h's.
fn put_crossed_levels(list: &[u16], h: NamedTable, levels: &[u8], buf: &mut [u8]) -> usize
    requires legible { Legible list.now h }
    requires h_in_bounds { length levels.now + columns (table_in list.now h) ≤ length buf.old }
    ensures { Put buf.old 0 (levels.now ++ (table_in list.now h).levels) buf.new result }
{
    let place = put_bytes(buf, 0, levels);
    put_level_counts(list, h, buf, place)
}

// Puts h's columns after those of the sheet in the buffers; M runs of it were made from each old run, and h has a run for each old run.
pub fn put_beside(
    list: &[u16],
    h: NamedTable,
    rows: usize,
    size: Size,
    table: &mut [u8],
    levels: &mut [u8],
    scratch: &mut [u8],
)
    requires long_enough { LongEnough table.old levels.old scratch.old × Zeros scratch.old }
    requires holds { Holds (sheet_in table.old levels.old size) table.old levels.old × (size.columns ≤ 128) }
    requires legible { Legible list.now h × (size.runs ≡ (table_in list.now h).runs * rows) }
    requires small_enough { SmallEnough (crossed_sheet rows (table_in list.now h) (sheet_in table.old levels.old size)) }
    ensures holds_2 { Holds (crossed_sheet rows (table_in list.now h) (sheet_in table.old levels.old size)) table.new levels.new }
    ensures zeros { Zeros scratch.new }
{
    let runs = size.runs;
    let width = size.columns;
    let mut counts = [0u8; 128];
    let count = put_crossed_levels(list, h, &levels[..width], &mut counts);
    let built = put_crossed_runs(list, h, rows, size, table, scratch);
    settle(
        runs * width,
        width,
        built,
        &counts[..count],
        table,
        levels,
        scratch,
    );
}
