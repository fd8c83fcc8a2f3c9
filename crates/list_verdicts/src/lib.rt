// The verdicts on ingredients where they stand in the list (question 4). The checks of counting take bytes, so the numbers of an ingredient are copied
// to the front of two buffers, which are set back to zero after the check.
#![tactic(auto)]

ghost use Rattle.std.specs.Prelude.{◌≡◌, ◌≤◌, length, take, drop, replicate};
ghost use Rattle.buffers.specs.Put.{Put};
ghost use Rattle.counting.specs.Verdict.{table_verdict, matrix_verdict};
ghost use Rattle.counting.specs.GeneratorVerdict.{generator_verdict};
ghost use Rattle.ingredients.specs.Named.{table_in, matrix_in, generator_in};
ghost use Rattle.ingredients.specs.declared.named.NamedTable.TheVariants.{Own};
ghost use Rattle.ingredients.specs.Standing.{TableStands, MatrixStands, GeneratorStands};
ghost use Rattle.question_4.specs.Passing.{Room, Copyable};

use buffers::{clear, put_numbers};
use counting::verdict::{DependenceFault, DifferenceFault, TableVerdict};
use generator_check::check_generator;
use matrix_check::check_matrix;
use table_check::check_table;

// The verdict on the table whose level counts and entries stand in the list from these places on.
pub fn table_verdict(
    list: &[u16],
    rows: usize,
    columns: usize,
    levels: usize,
    entries: usize,
    cells: &mut [u8],
    numbers: &mut [u8],
) -> TableVerdict
    requires table_stands { TableStands list.now rows columns levels entries }
    requires room { Room cells.old numbers.old }
    ensures value { result ≡ table_verdict (table_in list.now (Own rows columns levels entries)) }
    ensures cells_unchanged { cells.new ≡ cells.old }
    ensures numbers_unchanged { numbers.new ≡ numbers.old }
{
    let size = rows * columns;
    copy_part(list, levels, columns, numbers);
    copy_part(list, entries, size, cells);
    let verdict = check_table(&cells[..size], &numbers[..columns], rows);
    clear_front(cells, size);
    clear_front(numbers, columns);
    verdict
}

// What the check finds of the matrix whose entries stand in the list from this place on.
pub fn matrix_finding(
    list: &[u16],
    rows: usize,
    columns: usize,
    p: usize,
    entries: usize,
    cells: &mut [u8],
) -> Result<(), DifferenceFault>
    requires matrix_stands { MatrixStands list.now rows columns p entries }
    requires in_bounds { 65536 ≤ length cells.old }
    requires cells_value { cells.old ≡ replicate (length cells.old) 0 }
    ensures value { result ≡ matrix_verdict (matrix_in list.now rows columns p entries) }
    ensures cells_unchanged { cells.new ≡ cells.old }
{
    let size = rows * columns;
    copy_part(list, entries, size, cells);
    let finding = check_matrix(&cells[..size], rows, columns, p);
    clear_front(cells, size);
    finding
}

// What the check finds of the generator whose widths and entries stand in the list from these places on.
pub fn generator_finding(
    list: &[u16],
    t: usize,
    n: usize,
    s: usize,
    widths: usize,
    width: usize,
    entries: usize,
    cells: &mut [u8],
    numbers: &mut [u8],
) -> Result<(), DependenceFault>
    requires generator_stands { GeneratorStands list.now t n s widths width entries }
    requires room { Room cells.old numbers.old }
    ensures value { result ≡ generator_verdict (generator_in list.now t n s widths width entries) }
    ensures cells_unchanged { cells.new ≡ cells.old }
    ensures numbers_unchanged { numbers.new ≡ numbers.old }
{
    let size = t * width;
    copy_part(list, widths, n, numbers);
    copy_part(list, entries, size, cells);
    let finding = check_generator(&cells[..size], t, s as u8, &numbers[..n]);
    clear_front(cells, size);
    clear_front(numbers, n);
    finding
}

// Puts so many numbers of the list, from a place on, at the front of a buffer.
fn copy_part(list: &[u16], at: usize, count: usize, buffer: &mut [u8])
    requires { Copyable list.now at count buffer.old }
    ensures { Put buffer.old 0 (take count (drop at list.now)) buffer.new count }
{
    let end = at + count;
    put_numbers(buffer, 0, &list[at..end]);
}

// Sets so many bytes at the front of a buffer to zero.
fn clear_front(buffer: &mut [u8], count: usize)
    requires { count ≤ length buffer.old }
    ensures { Put buffer.old 0 (replicate count 0) buffer.new count }
{
    clear(&mut buffer[..count]);
}
