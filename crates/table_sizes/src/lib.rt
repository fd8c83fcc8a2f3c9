// The size of a table that a number names.
#![tactic(auto)]

ghost use Rattle.std.specs.Prelude.{◌≡◌};
ghost use Rattle.counting.specs.Table.{columns};
ghost use Rattle.ingredients.specs.Named.{table_in, Legible};

use ingredients::named::NamedTable;

// How many runs it has.
#[tactic(auto, unfolding(ingredients::specs::Named::Legible, ingredients::specs::Named::table_in, counting::specs::Table::table_of))]
pub fn run_count(list: &[u16], table: NamedTable) -> usize
    requires { Legible list.now table }
    ensures { result ≡ (table_in list.now table).runs }
{
    match table {
        NamedTable::Own {
            rows,
            columns: _,
            levels_at: _,
            entries_at: _,
        } => rows,
        NamedTable::House { number } => house::runs(number),
        NamedTable::Missing => 0,
    }
}

// How many columns it has.
#[tactic(auto, using(ingredients::proofs::OwnTables::own_columns), unfolding(ingredients::specs::Named::Legible, ingredients::specs::Named::table_in))]
pub fn column_count(list: &[u16], table: NamedTable) -> usize
    requires { Legible list.now table }
    ensures { result ≡ columns (table_in list.now table) }
{
    match table {
        NamedTable::Own {
            rows: _,
            columns,
            levels_at: _,
            entries_at: _,
        } => columns,
        NamedTable::House { number } => house::width(number),
        NamedTable::Missing => 0,
    }
}
