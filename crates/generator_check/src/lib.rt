// The check of a generator. One that passes, as nearly all do, is known by the combinations of each factor alone. Otherwise the coefficient
// lists of every two factors, or of an only one, are tried in increasing order until one combines their columns to zero.
#![tactic(auto)]

ghost use Rattle.std.specs.Prelude.{◌≡◌, ◌≤◌, ◌<◌, length, get_or};
ghost use Rattle.finite.specs.Sum.{sum};
ghost use Rattle.finite.specs.First.{first_pair};
ghost use Rattle.galois.specs.Arithmetic.{field_sum, field_product};
ghost use Rattle.counting.specs.Checkable.{CheckableGenerator};
ghost use Rattle.counting.specs.Generator.{generator_of, width};
ghost use Rattle.counting.specs.GeneratorVerdict.{combines_to_zero, dependence, pair_dependence, generator_finding, generator_verdict};
ghost use Rattle.combining.specs.Combining.{grid_of, BlocksIn, block_columns, as_dependence, factor_block};

use combining::Block;
use counting::verdict::DependenceFault;
use distinct_combinations::{all_distinct, row_combination};
use finite::pairs::IndexPair;
use finite::power;

// The verdict on the generator whose rows lie one after the other in `entries`.
pub fn check_generator(
    entries: &[u8],
    t: usize,
    s: u8,
    widths: &[u8],
) -> Result<(), DependenceFault>
    requires { CheckableGenerator entries.now t s widths.now }
    ensures { result ≡ generator_verdict (generator_of entries.now t s widths.now) }
{
    let row = columns_before(widths, widths.len());
    if all_distinct(entries, t, row, s, widths) {
        return Ok(());
    }
    if widths.len() == 1 {
        let none = Block { start: 0, width: 0 };
        return match least_dependence(entries, t, row, s, factor_block(widths, 0), none) {
            Some(coefficients) => Err(DependenceFault {
                first: 1,
                second: 0,
                coefficients,
            }),
            None => Ok(()),
        };
    }
    dependent_pair(entries, t, row, s, widths)
}

// The first two dependent factors.
fn dependent_pair(
    entries: &[u8],
    t: usize,
    row: usize,
    s: u8,
    widths: &[u8],
) -> Result<(), DependenceFault>
    requires checkable_generator { CheckableGenerator entries.now t s widths.now }
    requires row_value { row ≡ width widths.now }
    ensures { result ≡ generator_finding (first_pair (length widths.now) (pair_dependence (field_sum s) (field_product s) (generator_of entries.now t s widths.now))) }
{
    // A `while`, as in the check of a table: each pair is made from the one before it, with its place.
    let mut pair = IndexPair::start();
    while pair.second < widths.len() {
        let first = pair.first;
        let second = pair.second;
        let one = factor_block(widths, first);
        let other = factor_block(widths, second);
        if let Some(coefficients) = least_dependence(entries, t, row, s, one, other) {
            return Err(DependenceFault {
                first: first + 1,
                second: second + 1,
                coefficients,
            });
        }
        pair = pair.next(widths.len());
    }
    Ok(())
}

// Where a factor's columns stand in a row.
fn factor_block(widths: &[u8], factor: usize) -> Block
    requires { (factor < length widths.now) × (length widths.now ≤ 128) }
    ensures { result ≡ factor_block widths.now factor }
{
    Block {
        start: columns_before(widths, factor),
        width: widths[factor] as usize,
    }
}

// How many columns the first factors have.
fn columns_before(widths: &[u8], factors: usize) -> usize
    requires { (factors ≤ length widths.now) × (length widths.now ≤ 128) }
    ensures { result ≡ sum factors (λ k. get_or widths.now k 0) }
{
    let mut columns = 0;
    for width in &widths[..factors] {
        columns += *width as usize;
    }
    columns
}

// The least coefficient list but zeros that combines the columns of two blocks to zero.
fn least_dependence(
    entries: &[u8],
    t: usize,
    row: usize,
    s: u8,
    one: Block,
    other: Block,
) -> Option<usize>
    requires { BlocksIn entries.now t row s one other }
    ensures { result ≡ as_dependence (dependence (field_sum s) (field_product s) (grid_of entries.now t row s) (block_columns one other)) }
{
    let end = power(s as usize, one.width) * power(s as usize, other.width);
    for coefficients in 1..end {
        if combines_to_zero(entries, t, row, s, one, other, coefficients) {
            return Some(coefficients);
        }
    }
    None
}

// Whether the coefficients combine the columns of two blocks to zero in every row.
fn combines_to_zero(
    entries: &[u8],
    t: usize,
    row: usize,
    s: u8,
    one: Block,
    other: Block,
    coefficients: usize,
) -> bool
    requires { BlocksIn entries.now t row s one other }
    ensures { result ≡ combines_to_zero (field_sum s) (field_product s) (grid_of entries.now t row s) (block_columns one other) coefficients }
{
    for i in 0..t {
        if row_combination(entries, i * row, s, one, other, coefficients) != 0 {
            return false;
        }
    }
    true
}
