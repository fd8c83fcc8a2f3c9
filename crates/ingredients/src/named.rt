// The table that a number names: one of the list, by its places, or a house table.
ghost use Rattle.std.specs.Prelude.{◌≡◌};
ghost use Rattle.order.specs.Grammar.{read_order};
ghost use Rattle.ingredients.specs.Named.{named_table};

use ingredient_places::ingredient_at;
use order::Located;

#[derive(Clone, Copy)]
pub enum NamedTable {
    Own {
        rows: usize,
        columns: usize,
        levels_at: usize,
        entries_at: usize,
    },
    House {
        number: usize,
    },
    // The number names no table.
    Missing,
}

// The table that number i names.
pub fn table_named(list: &[u16], i: usize) -> NamedTable
    ensures { result ≡ named_table (read_order list.now) i }
{
    if 101 <= i && i <= 104 {
        return NamedTable::House { number: i };
    }
    match ingredient_at(list, i) {
        Some(
            Located::Table {
                rows,
                columns,
                levels_at,
                entries_at,
            },
        ) => NamedTable::Own {
            rows,
            columns,
            levels_at,
            entries_at,
        },
        _ => NamedTable::Missing,
    }
}
