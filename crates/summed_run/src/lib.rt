// One run of the sheet that step 3, SUM r, d1 .. dr, k, leaves, but for k's columns: the sums of a sheet run with a row of the matrices.
#![tactic(auto)]

ghost use Rattle.std.specs.Prelude.{map, ◌+◌, ◌%◌, ◌≤◌, ◌<◌, length, get_or};
ghost use Rattle.finite.specs.Lists.{AllBelow};
ghost use Rattle.buffers.specs.Put.{Put};
ghost use Rattle.step_tables.specs.Sum.{level_sum};
ghost use Rattle.sum_tables.specs.Tables.{FieldTables, Summable};
ghost use Rattle.sum_bytes.specs.Summing.{RowStands, RunStands, summed_run};

use buffers::put_byte;
use group_sums::{modulo_sum, over_field};

// The sums of a level with each entry of a matrix row, by the rule that goes with p.
fn put_sums(buf: &mut [u8], at: usize, p: u8, level: u8, row: &[u16], sums: &[u8]) -> usize
    requires row_in_bounds { at + length row.now ≤ length buf.old }
    requires level_lt_p { (level < p) × AllBelow p row.now }
    requires summable { Summable p (length row.now) sums.now }
    ensures { Put buf.old at (map (level_sum p level) row.now) buf.new result }
{
    if over_field(p) {
        let start = p as usize * 81 + level as usize * p as usize;
        let end = start + p as usize;
        put_looked_up(buf, at, &sums[start..end], row)
    } else {
        put_modulo_sums(buf, at, p, level, row)
    }
}

// The sums that stand for each entry of a matrix row.
fn put_looked_up(buf: &mut [u8], at: usize, sums: &[u8], row: &[u16]) -> usize
    requires row_in_bounds { at + length row.now ≤ length buf.old }
    requires all_below { AllBelow (length sums.now) row.now }
    ensures { Put buf.old at (map (λ b. get_or sums.now b 0) row.now) buf.new result }
{
    let mut place = at;
    for b in row {
        place = put_byte(buf, place, sums[*b as usize]);
    }
    place
}

// The sums modulo p.
fn put_modulo_sums(buf: &mut [u8], at: usize, p: u8, level: u8, row: &[u16]) -> usize
    requires row_in_bounds { at + length row.now ≤ length buf.old }
    requires level_lt_p { (level < p) × AllBelow p row.now }
    ensures { Put buf.old at (map (λ b. (level + b) % p) row.now) buf.new result }
{
    let mut place = at;
    for b in row {
        place = put_byte(buf, place, modulo_sum(p, level, *b));
    }
    place
}

// The sums of a sheet run, column by column, with a row of the matrices that serve its level counts.
pub fn put_summed_run(
    buf: &mut [u8],
    at: usize,
    list: &[u16],
    entries: &[u16],
    widths: &[u8],
    row: usize,
    levels: &[u8],
    cells: &[u8],
    sums: &[u8],
) -> usize
    requires row_stands { RowStands list.now entries.now widths.now row }
    requires run_stands { RunStands levels.now cells.now }
    requires cells_in_bounds { at + length (summed_run list.now entries.now widths.now row levels.now cells.now) ≤ length buf.old }
    requires field_tables { FieldTables widths.now 10 sums.now }
    ensures { Put buf.old at (summed_run list.now entries.now widths.now row levels.now cells.now) buf.new result }
{
    let mut place = at;
    for (j, level) in levels.iter().enumerate() {
        let s = *level as usize;
        let width = widths[s] as usize;
        let start = entries[s] as usize + row * width;
        let end = start + width;
        place = put_sums(buf, place, *level, cells[j], &list[start..end], sums);
    }
    place
}
