// A table that a number names, put into a buffer: the levels of one run, all runs, and the level counts.
#![tactic(auto)]

ghost use Rattle.std.specs.Prelude.{◌+◌, ◌*◌, ◌≤◌, ◌<◌, length};
ghost use Rattle.buffers.specs.Put.{Put};
ghost use Rattle.counting.specs.Table.{columns};
ghost use Rattle.ingredients.specs.Named.{table_in, Legible};
ghost use Rattle.layout.specs.Bytes.{run_of, runs_of};

use buffers::put_byte;
use ingredients::named::NamedTable;
use table_reading::{level, level_count};
use table_sizes::{column_count, run_count};

// Puts the levels of a run; of a table with no columns there are none, whatever the run.
pub fn put_run(list: &[u16], table: NamedTable, run: usize, buf: &mut [u8], at: usize) -> usize
    requires legible { Legible list.now table }
    requires run_bound { 0 < columns (table_in list.now table) → run < (table_in list.now table).runs }
    requires table_in_bounds { at + columns (table_in list.now table) ≤ length buf.old }
    ensures { Put buf.old at (run_of (table_in list.now table) run) buf.new result }
{
    let width = column_count(list, table);
    let mut place = at;
    for column in 0..width {
        place = put_byte(buf, place, level(list, table, run, column));
    }
    place
}

// Puts all runs, one after the other, from the first byte on.
pub fn put_runs(list: &[u16], table: NamedTable, buf: &mut [u8]) -> usize
    requires legible { Legible list.now table }
    requires table_in_bounds { (table_in list.now table).runs * columns (table_in list.now table) ≤ length buf.old }
    ensures { Put buf.old 0 (runs_of (table_in list.now table)) buf.new result }
{
    let runs = run_count(list, table);
    let mut place = 0;
    for run in 0..runs {
        place = put_run(list, table, run, buf, place);
    }
    place
}

// Puts the level counts.
pub fn put_level_counts(list: &[u16], table: NamedTable, buf: &mut [u8], at: usize) -> usize
    requires legible { Legible list.now table }
    requires table_in_bounds { at + columns (table_in list.now table) ≤ length buf.old }
    ensures { Put buf.old at (table_in list.now table).levels buf.new result }
{
    let width = column_count(list, table);
    let mut place = at;
    for column in 0..width {
        place = put_byte(buf, place, level_count(list, table, column));
    }
    place
}
