// What SPLIT asks of the table that it puts in the place of a column, and what it adds for it. Columns count from 0 here.
#![tactic(auto)]

ghost use Rattle.std.specs.Prelude.{◌≡◌, ◌&&◌, eqb, ltb, length, get_or};
ghost use Rattle.step_tables.specs.Sheet.{SmallEnough};
ghost use Rattle.spare.specs.Spare.{spare};
ghost use Rattle.ingredients.specs.Named.{table_in, Legible};

use ingredients::named::NamedTable;
use spare::spare_of;
use table_putting::put_level_counts;
use table_sizes::run_count;

// Question 6, from the level counts of the sheet: is the column on it, and has the table as many runs as the column has levels?
pub fn parts_fit(list: &[u16], named: NamedTable, c: usize, levels: &[u8]) -> bool
    requires { Legible list.now named }
    ensures { result ≡ (ltb c (length levels.now) && eqb (table_in list.now named).runs (get_or levels.now c 0)) }
{
    c < levels.len() && run_count(list, named) == levels[c] as usize
}

// The spare degrees of the table, from its level counts.
pub fn table_spare(list: &[u16], named: NamedTable) -> i64
    requires legible { Legible list.now named }
    requires small_enough { SmallEnough (table_in list.now named) }
    ensures { result ≡ spare (table_in list.now named) }
{
    let mut counts = [0u8; 128];
    let columns = put_level_counts(list, named, &mut counts, 0);
    spare_of(run_count(list, named), columns, &counts)
}
