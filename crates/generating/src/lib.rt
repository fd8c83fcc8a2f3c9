// Step 2, FIELD i: the sheet is the table that generator i makes. Its entries and widths are read from the list where they stand.
#![tactic(auto)]

ghost use Rattle.std.specs.Prelude.{◌≡◌, ◌*◌, ◌^◌, ◌≤◌, T, length};
ghost use Rattle.galois.specs.Arithmetic.{field_size};
ghost use Rattle.sheets.specs.Steps.{filled, field_step};
ghost use Rattle.buffers.specs.Put.{Put};
ghost use Rattle.layout.specs.Bytes.{Zeros};
ghost use Rattle.layout.specs.Step.{Readable, Stands, first_in, Left};
ghost use Rattle.generated_runs.specs.FieldPlaces.{FieldStands, field_generator};
ghost use Rattle.generated_runs.specs.LevelSums.{SumsOf, WidthsTo};

use buffers::put_byte;
use finite::power;
use generated_runs::{GeneratorAt, put_runs};
use ingredient_places::ingredient_at;
use order::Located;
use sheets::answer::{Answer, Refusal};
use spare::sheet_answer;

// FIELD, with its operand at place `at`. Question 5: does ingredient i exist, and is it a generator? Question 8 needs no asking: the limits of a
// generator keep its sheet within 512 runs and 128 columns.
pub fn field(list: &[u16], at: usize, table: &mut [u8], levels: &mut [u8]) -> Answer
    requires stands { Stands list.now 2 at }
    requires readable { Readable list.now }
    requires in_bounds { (65536 ≤ length table.old) × Zeros table.old }
    requires in_bounds_2 { (128 ≤ length levels.old) × Zeros levels.old }
    ensures { Left (first_in list.now 2 at) table.old levels.old result table.new levels.new }
{
    let not_allowed = Answer::Refused(Refusal::StepNotAllowed { step: 1 });
    let Some(what) = ingredient_at(list, list[at] as usize) else {
        return not_allowed;
    };
    let Located::Generator {
        t,
        n,
        s,
        widths_at,
        width,
        entries_at,
    } = what
    else {
        return not_allowed;
    };
    let g = GeneratorAt {
        t,
        n,
        s: s as u8,
        widths_at,
        width,
        entries_at,
    };
    fill(list, g, table, levels)
}

// The sheet of a generator: its level counts and its runs.
fn fill(list: &[u16], g: GeneratorAt, table: &mut [u8], levels: &mut [u8]) -> Answer
    requires field_stands { FieldStands list.now g }
    requires in_bounds { (65536 ≤ length table.old) × Zeros table.old }
    requires in_bounds_2 { (128 ≤ length levels.old) × Zeros levels.old }
    ensures { Left (filled (field_step (field_generator list.now g))) table.old levels.old result table.new levels.new }
{
    let runs = power(g.s as usize, g.t);
    put_levels(list, g, levels);
    let width = widest(list, g);
    let sums = level_sums(g.s, width);
    put_runs(list, g, runs, power(g.s as usize, width), &sums, table);
    sheet_answer(runs, g.n, levels)
}

// The level counts: s to the power of its width for each factor.
fn put_levels(list: &[u16], g: GeneratorAt, levels: &mut [u8]) -> usize
    requires field_stands { FieldStands list.now g }
    requires in_bounds { 128 ≤ length levels.old }
    ensures { Put levels.old 0 (field_step (field_generator list.now g)).levels levels.new result }
{
    let mut place = 0;
    for width in &list[g.widths_at..g.widths_at + g.n] {
        place = put_byte(levels, place, power(g.s as usize, *width as usize) as u8);
    }
    place
}

// The most columns that a factor has.
fn widest(list: &[u16], g: GeneratorAt) -> usize
    requires { FieldStands list.now g }
    ensures { WidthsTo list.now g result × (g.s ^ result ≤ 64) }
{
    let mut most = 0;
    for width in &list[g.widths_at..g.widths_at + g.n] {
        most = most.max(*width as usize);
    }
    most
}

// The sums of any two levels below s to the power of `width`, digit by digit in the field. That of the digits before the last is there already.
#[tactic(auto, using(galois::proofs::Fields::size_positive))]
fn level_sums(s: u8, width: usize) -> [u8; 4096]
    requires { T (field_size s) × (s ^ width ≤ 64) }
    ensures { SumsOf s width (s ^ width * s ^ width) result }
{
    let base = s as usize;
    let most = power(base, width);
    let mut sums = [0u8; 4096];
    for place in 1..most * most {
        let x = place / most;
        let y = place % most;
        let before = sums[x / base * most + y / base];
        sums[place] = before * s + field_sums::sum(s, (x % base) as u8, (y % base) as u8);
    }
    sums
}
