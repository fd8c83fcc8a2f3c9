// A page of a sheet, put into a buffer (document 02, K3).
#![tactic(auto)]

ghost use Rattle.std.specs.Prelude.{◌≡◌, ◌+◌, ◌*◌, ◌≤◌, ◌<◌, length};
ghost use mathlib.Core.List.{flat_map};
ghost use Rattle.finite.specs.Lists.{from};
ghost use Rattle.buffers.specs.Put.{Put};
ghost use Rattle.page_text.specs.Pages.{page_count, page_text};
ghost use Rattle.given_sheet.specs.Given.{WellFormed, given_sheet};
ghost use Rattle.page_putting.specs.Part.{part_of, part_line, PartIn};

use level_lines::{put_count_line, put_run_line};
use page_counts::run_parts;
use page_lines::{put_blank_line, put_number_line};

// What a page has of its sheet: the runs from one on, and the columns from one to before another.
#[derive(Clone, Copy)]
pub struct Part {
    pub run: usize,
    pub column: usize,
    pub end: usize,
}

// Puts a page of a sheet into a buffer from a place on, leaves the rest of it, and returns the place after the page.
pub fn put_page(
    table: &[u8],
    levels: &[u8],
    runs: usize,
    columns: usize,
    number: usize,
    buf: &mut [u8],
    at: usize,
) -> usize
    requires well_formed { WellFormed runs columns levels.now table.now }
    requires le_number { (1 ≤ number) × (number ≤ page_count runs columns) × (at + 4800 ≤ length buf.old) }
    ensures { Put buf.old at (page_text (given_sheet runs columns levels.now table.now) number) buf.new result }
{
    let part = page_part(runs, columns, number);
    let first = part.column;
    let end = part.end;
    let after_numbers = put_number_line(buf, at, number, first, end);
    let after_counts = put_count_line(buf, after_numbers, &levels[first..end]);
    put_run_lines(table, runs, columns, part, buf, after_counts)
}

// The part of a sheet that a page has: all runs of the first 25 columns come before the next 25.
fn page_part(runs: usize, columns: usize, number: usize) -> Part
    requires { (1 ≤ runs) × (runs ≤ 512) × (columns ≤ 128) × (1 ≤ number) × (number ≤ page_count runs columns) }
    ensures { result ≡ part_of runs columns number }
{
    let blocks = run_parts(runs);
    let run = (number - 1) % blocks * 58;
    let column = (number - 1) / blocks * 25;
    Part {
        run,
        column,
        end: columns.min(column + 25),
    }
}

// Puts the 58 lines of a page's runs.
fn put_run_lines(
    table: &[u8],
    runs: usize,
    columns: usize,
    part: Part,
    buf: &mut [u8],
    at: usize,
) -> usize
    requires part_in { PartIn runs columns table.now part }
    requires at_in_bounds { at + 4640 ≤ length buf.old }
    ensures { Put buf.old at (flat_map (λ k. part_line runs columns table.now part (part.run + k)) (from 0 58)) buf.new result }
{
    let mut place = at;
    for k in 0..58 {
        place = put_run_or_blank(table, runs, columns, part, part.run + k, buf, place);
    }
    place
}

// Puts the line of a run, or a blank one where there is no such run.
fn put_run_or_blank(
    table: &[u8],
    runs: usize,
    columns: usize,
    part: Part,
    run: usize,
    buf: &mut [u8],
    at: usize,
) -> usize
    requires part_in { PartIn runs columns table.now part }
    requires at_in_bounds { at + 80 ≤ length buf.old }
    ensures { Put buf.old at (part_line runs columns table.now part run) buf.new result }
{
    if runs <= run {
        return put_blank_line(buf, at);
    }
    let start = run * columns + part.column;
    let end = run * columns + part.end;
    put_run_line(buf, at, run, &table[start..end])
}
