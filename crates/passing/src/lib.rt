// Question 4: does every ingredient meet its published definition?
#![tactic(auto)]

ghost use Rattle.std.specs.Prelude.{◌≡◌, Ok, ◌≤◌, length, replicate};
ghost use Rattle.order.specs.Range.{range_of};
ghost use Rattle.order.specs.Grammar.{read_order};
ghost use Rattle.question_4.specs.Passing.{Room, passing_of, refusal_at, passing_in};

use ingredient_places::{ingredient_at, ingredient_count};
use list_verdicts::{generator_finding, matrix_finding, table_verdict};
use order::Located;
use sheets::answer::Refusal;
use verdict_answers::{generator_passing, matrix_passing, table_passing};

// The first ingredient, used or not, that does not pass.
pub fn first_failing(list: &[u16], cells: &mut [u8], numbers: &mut [u8]) -> Result<(), Refusal>
    requires list_value { range_of (read_order list.now) ≡ Ok tt }
    requires room { Room cells.old numbers.old }
    ensures value { result ≡ passing_in (read_order list.now) }
    ensures cells_after { cells.new ≡ replicate (length cells.old) 0 }
    ensures numbers_after { numbers.new ≡ replicate (length numbers.old) 0 }
{
    let count = ingredient_count(list);
    for i in 0..count {
        ingredient_passing(list, i + 1, cells, numbers)?;
    }
    Ok(())
}

// Whether ingredient number i passes.
fn ingredient_passing(
    list: &[u16],
    i: usize,
    cells: &mut [u8],
    numbers: &mut [u8],
) -> Result<(), Refusal>
    requires list_value { range_of (read_order list.now) ≡ Ok tt }
    requires le_i { 1 ≤ i }
    requires room { Room cells.old numbers.old }
    ensures value { result ≡ passing_of (refusal_at list.now i) }
    ensures cells_unchanged { cells.new ≡ cells.old }
    ensures numbers_unchanged { numbers.new ≡ numbers.old }
{
    match ingredient_at(list, i) {
        Some(
            Located::Table {
                rows,
                columns,
                levels_at,
                entries_at,
            },
        ) => table_passing(
            i,
            table_verdict(list, rows, columns, levels_at, entries_at, cells, numbers),
        ),
        Some(
            Located::Matrix {
                rows,
                columns,
                p,
                entries_at,
            },
        ) => matrix_passing(i, matrix_finding(list, rows, columns, p, entries_at, cells)),
        Some(
            Located::Generator {
                t,
                n,
                s,
                widths_at,
                width,
                entries_at,
            },
        ) => generator_passing(
            i,
            generator_finding(list, t, n, s, widths_at, width, entries_at, cells, numbers),
        ),
        None => Ok(()),
    }
}
