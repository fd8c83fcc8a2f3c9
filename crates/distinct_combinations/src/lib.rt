// Combinations of a generator's columns, row by row, and whether those of single factors are all different.
#![tactic(auto)]

ghost use Rattle.std.specs.Prelude.{◌≡◌, true, ◌+◌, ◌^◌, ◌<◌, length};
ghost use Rattle.counting.specs.Checkable.{CheckableGenerator};
ghost use Rattle.counting.specs.Generator.{generator_of, width};
ghost use Rattle.counting.specs.GeneratorVerdict.{generator_verdict};
ghost use Rattle.combining.specs.Combining.{combined, ElementsAt, BlocksIn, no_block, row_combination, combination_code};
ghost use Rattle.combining.specs.Marks.{NewCodes};

use combining::{Block, Combining};
use finite::power;

// Whether the combinations of the columns of one factor, over all factors, are different from each other and from zero. Then any two factors
// are independent, and so is an only one: what combines the columns of two factors to zero has in it a combination of the one that is opposite
// to one of the other, and the opposite of a factor's combination is a combination of that factor too.
pub fn all_distinct(entries: &[u8], t: usize, row: usize, s: u8, widths: &[u8]) -> bool
    requires checkable_generator { CheckableGenerator entries.now t s widths.now }
    requires row_value { row ≡ width widths.now }
    ensures { result ≡ true → generator_verdict (generator_of entries.now t s widths.now) ≡ Ok tt }
{
    let mut seen = [false; 512];
    // The code of zero counts as seen from the start.
    seen[0] = true;
    let mut start = 0;
    for width in widths {
        let block = Block {
            start,
            width: *width as usize,
        };
        if !codes_are_new(entries, t, row, s, block, &mut seen) {
            return false;
        }
        start += block.width;
    }
    true
}

// Whether the codes of a block's combinations, by coefficients that are not all zero, are all new: none was seen before. Marks them as seen.
fn codes_are_new(
    entries: &[u8],
    t: usize,
    row: usize,
    s: u8,
    block: Block,
    seen: &mut [bool],
) -> bool
    requires blocks_in { BlocksIn entries.now t row s block no_block }
    requires seen_len { length seen.old ≡ 512 }
    ensures { result ≡ true → NewCodes seen.old seen.new (s ^ block.width) (combination_code entries.now t row s block) }
{
    let end = power(s as usize, block.width);
    for number in 1..end {
        let code = combination_code(entries, t, row, s, block, number);
        // No mark stands for it, so whether it is new is not known.
        if 512 <= code {
            return false;
        }
        if seen[code] {
            return false;
        }
        seen[code] = true;
    }
    true
}

// The combination of a block's columns in all rows as one number, its code: the elements in the rows are its digits base s. By the limits of
// document 01 a code is below 512; a larger one is not worked out to the end.
fn combination_code(
    entries: &[u8],
    t: usize,
    row: usize,
    s: u8,
    block: Block,
    coefficients: usize,
) -> usize
    requires { BlocksIn entries.now t row s block no_block }
    ensures { result < 512 → result ≡ combination_code entries.now t row s block coefficients }
{
    let none = Block { start: 0, width: 0 };
    let mut code = 0;
    for i in 0..t {
        let element = row_combination(entries, i * row, s, block, none, coefficients);
        code = code * s as usize + element as usize;
        if 512 <= code {
            return code;
        }
    }
    code
}

// The combination of the columns of two blocks in the row that starts at `start`.
pub fn row_combination(
    entries: &[u8],
    start: usize,
    s: u8,
    one: Block,
    other: Block,
    coefficients: usize,
) -> u8
    requires elements_at { ElementsAt entries.now (start + one.start) (start + one.start + one.width) s }
    requires elements_at_2 { ElementsAt entries.now (start + other.start) (start + other.start + other.width) s }
    ensures { result ≡ row_combination entries.now start s one other coefficients }
{
    let one_start = start + one.start;
    let other_start = start + other.start;
    let none = Combining {
        rest: coefficients,
        sum: 0,
    };
    let last = combine(entries, other_start, other_start + other.width, s, none);
    let all = combine(entries, one_start, one_start + one.width, s, last);
    all.sum
}

// Adds to a combination the elements from `start` to `end`, the last first, each times the next coefficient.
fn combine(entries: &[u8], start: usize, end: usize, s: u8, so_far: Combining) -> Combining
    requires elements_at { ElementsAt entries.now start end s }
    requires so_far_bound { so_far.sum < s }
    ensures { result ≡ combined s entries.now start end so_far }
{
    let mut rest = so_far.rest;
    let mut sum = so_far.sum;
    for at in (start..end).rev() {
        let coefficient = (rest % s as usize) as u8;
        sum = field_sums::sum(s, field_products::product(s, coefficient, entries[at]), sum);
        rest /= s as usize;
    }
    Combining { rest, sum }
}
