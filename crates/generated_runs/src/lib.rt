// The runs of the table that a generator makes, for step 2, FIELD. Its entries and widths are read from the list where they stand.
#![tactic(auto)]

ghost use Rattle.std.specs.Prelude.{◌≡◌, ◌+◌, ◌^◌, ◌≤◌, ◌<◌, T, length};
ghost use Rattle.finite.specs.Digits.{digits, numeral};
ghost use Rattle.finite.specs.Lists.{from};
ghost use Rattle.galois.specs.Arithmetic.{field_size, field_sum, field_product};
ghost use Rattle.step_tables.specs.Field.{values};
ghost use Rattle.sheets.specs.Steps.{field_step};
ghost use Rattle.buffers.specs.Put.{Put};
ghost use Rattle.layout.specs.Bytes.{run_of, runs_of};
ghost use Rattle.generated_runs.specs.FieldPlaces.{FieldStands, ColumnsIn, field_generator};
ghost use Rattle.generated_runs.specs.LevelSums.{Sums, single, Leads, RunsBefore, SumsStand, run_sum};

use buffers::put_byte;

// A generator where it stands in the list: t rows, n factors over a field of s elements, the place of the first width, the length of a row, and
// the place of the first entry.
#[derive(Clone, Copy)]
pub struct GeneratorAt {
    pub t: usize,
    pub n: usize,
    pub s: u8,
    pub widths_at: usize,
    pub width: usize,
    pub entries_at: usize,
}

// A run whose tuple has one digit that is not 0, or none, as run 0: its number, the weight of the digit, the row of the generator that the digit
// multiplies, and the digit.
#[derive(Clone, Copy)]
struct Leading {
    run: usize,
    span: usize,
    row: usize,
    digit: u8,
}

// The runs: all tuples in counting order. Where a tuple has one digit that is not 0, its run is that digit times a row; any other run is the sum of
// two before it, at one look-up for each level.
pub fn put_runs(
    list: &[u16],
    g: GeneratorAt,
    runs: usize,
    most: usize,
    sums: &[u8],
    table: &mut [u8],
) -> usize
    requires field_stands { FieldStands list.now g }
    requires runs_value { runs ≡ g.s ^ g.t }
    requires sums { Sums list.now g most sums.now }
    requires in_bounds { 65536 ≤ length table.old }
    ensures { Put table.old 0 (runs_of (field_step (field_generator list.now g))) table.new result }
{
    let mut lead = Leading {
        run: 0,
        span: 1,
        row: g.t - 1,
        digit: 0,
    };
    let mut place = 0;
    for run in 0..runs {
        lead = next_leading(g, lead, run);
        place = put_run(list, g, lead, run, most, sums, table, place);
    }
    place
}

// The last run up to `run` whose tuple has one digit, where `before` is the last up to the run before.
fn next_leading(g: GeneratorAt, before: Leading, run: usize) -> Leading
    requires t { T (field_size g.s) × (g.s ^ g.t ≤ 512) }
    requires leads { Leads g before × (before.run ≤ run) × (run ≤ before.run + before.span) }
    requires run_bound { run < g.s ^ g.t }
    ensures { Leads g result × (result.run ≤ run) × (run < result.run + result.span) }
{
    if run < before.run + before.span {
        return before;
    }
    if before.digit + 1 < g.s {
        return Leading {
            run,
            span: before.span,
            row: before.row,
            digit: before.digit + 1,
        };
    }
    Leading {
        run,
        span: run,
        row: before.row - 1,
        digit: 1,
    }
}

// One run: a digit times a row of the generator, or the sum of two runs that are there.
fn put_run(
    list: &[u16],
    g: GeneratorAt,
    lead: Leading,
    run: usize,
    most: usize,
    sums: &[u8],
    table: &mut [u8],
    at: usize,
) -> usize
    requires field_stands { FieldStands list.now g }
    requires leads { Leads g lead × (lead.run ≤ run) × (run < lead.run + lead.span) }
    requires sums { Sums list.now g most sums.now }
    requires runs_before { RunsBefore (field_step (field_generator list.now g)) run table.old at }
    requires n_in_bounds { at + g.n ≤ length table.old }
    ensures { Put table.old at (run_of (field_step (field_generator list.now g)) run) table.new result }
{
    if run == lead.run {
        put_multiple(list, g, lead.row, lead.digit, table, at)
    } else {
        put_sum(
            lead.run * g.n,
            (run - lead.run) * g.n,
            g.n,
            most,
            sums,
            table,
            at,
        )
    }
}

// The run of the tuple with a digit in one row and zeros in the others.
fn put_multiple(
    list: &[u16],
    g: GeneratorAt,
    row: usize,
    digit: u8,
    table: &mut [u8],
    at: usize,
) -> usize
    requires field_stands { FieldStands list.now g }
    requires row_lt_t { (row < g.t) × (digit < g.s) }
    requires n_in_bounds { at + g.n ≤ length table.old }
    ensures { Put table.old at (run_of (field_step (field_generator list.now g)) (single g row digit)) table.new result }
{
    let mut place = at;
    let mut column = 0;
    for width in &list[g.widths_at..g.widths_at + g.n] {
        let width = *width as usize;
        let level = multiple_level(list, g, row, digit, column, width);
        place = put_byte(table, place, level);
        column += width;
    }
    place
}

// The level of a factor in that run: the digit times the elements of the row in its `width` columns, which start at `column`, read as one base-s
// number, the first value highest (by Horner's rule).
fn multiple_level(
    list: &[u16],
    g: GeneratorAt,
    row: usize,
    digit: u8,
    column: usize,
    width: usize,
) -> u8
    requires field_stands { FieldStands list.now g }
    requires row_lt_t { (row < g.t) × (digit < g.s) }
    requires columns_in { ColumnsIn g column width }
    ensures { result ≡ numeral g.s (values (field_sum g.s) (field_product g.s) (field_generator list.now g) (digits g.s g.t (single g row digit)) (from column width)) }
{
    let start = g.entries_at + row * g.width + column;
    let mut level = 0;
    for entry in &list[start..start + width] {
        level = level * g.s + field_products::product(g.s, digit, *entry as u8);
    }
    level
}

// The sum of two runs of n levels in the table, level by level.
fn put_sum(
    one: usize,
    other: usize,
    n: usize,
    most: usize,
    sums: &[u8],
    table: &mut [u8],
    at: usize,
) -> usize
    requires n_bound { (one + n ≤ at) × (other + n ≤ at) × (at + n ≤ length table.old) }
    requires sums_stand { SumsStand most sums.now table.old one other n }
    ensures { Put table.old at (run_sum most sums.now table.old one other n) table.new result }
{
    let mut place = at;
    for i in 0..n {
        let x = table[one + i] as usize;
        let y = table[other + i] as usize;
        place = put_byte(table, place, sums[x * most + y]);
    }
    place
}
