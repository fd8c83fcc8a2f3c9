// The level counts and the levels of a table that a number names, read where they stand.
#![tactic(auto)]

ghost use Rattle.std.specs.Prelude.{◌≡◌, ◌<◌};
ghost use Rattle.counting.specs.Table.{columns, levels_of};
ghost use Rattle.ingredients.specs.Named.{table_in, Legible};

use ingredients::named::NamedTable;

// The level count of a column.
pub fn level_count(list: &[u16], table: NamedTable, column: usize) -> u8
    requires legible { Legible list.now table }
    requires column_bound { column < columns (table_in list.now table) }
    ensures { result ≡ levels_of (table_in list.now table) column }
{
    match table {
        NamedTable::Own {
            rows: _,
            columns: _,
            levels_at,
            entries_at: _,
        } => list[levels_at + column] as u8,
        NamedTable::House { number } => house::level_count(number, column),
        NamedTable::Missing => 0,
    }
}

// The level in a run and a column.
pub fn level(list: &[u16], table: NamedTable, run: usize, column: usize) -> u8
    requires legible { Legible list.now table }
    requires run_bound { (run < (table_in list.now table).runs) × (column < columns (table_in list.now table)) }
    ensures { result ≡ (table_in list.now table).cell run column }
{
    match table {
        NamedTable::Own {
            rows: _,
            columns,
            levels_at: _,
            entries_at,
        } => list[entries_at + run * columns + column] as u8,
        NamedTable::House { number } => house_runs::cell(number, run, column),
        NamedTable::Missing => 0,
    }
}
