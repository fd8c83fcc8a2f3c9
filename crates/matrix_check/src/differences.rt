// The differences of two columns of a matrix, counted over its rows.
ghost use Rattle.std.specs.Prelude.{◌≡◌, ◌*◌, ◌≤◌, ◌<◌};
ghost use Rattle.counting.specs.Matrix.{matrix_of, row_difference};
ghost use Rattle.counting.specs.Checkable.{CheckableMatrix};
ghost use Rattle.counting.specs.Verdict.{difference_deviation};
ghost use Rattle.tally.specs.Tally.{Cleared, Tallied, as_deviation};
ghost use Rattle.matrix_check.specs.Differences.{DifferencesOf};

use group_sums::level_sum;
use tally::{Deviation, first_deviation};

// The lowest of the p differences of two columns, first minus second, that is not that of the p-th part of the rows.
pub fn differences_deviation(
    entries: &[u8],
    rows: usize,
    columns: usize,
    first: usize,
    second: usize,
    p: usize,
    differences: &[u8],
    counters: &mut [u16],
) -> Option<Deviation>
    requires checkable_matrix { CheckableMatrix entries.now rows columns p }
    requires first_lt_columns { (first < columns) × (second < columns) }
    requires differences_of { DifferencesOf p (p * p) differences.now }
    requires cleared { Cleared counters.old }
    ensures value { result ≡ as_deviation (difference_deviation (matrix_of entries.now rows columns p) first second) }
    ensures cleared_2 { result ≡ None → Cleared counters.new }
{
    tally_differences(
        entries,
        rows,
        columns,
        first,
        second,
        p,
        differences,
        counters,
    );
    first_deviation(counters, p, rows)
}

// Counts the rows by the difference of two columns.
fn tally_differences(
    entries: &[u8],
    rows: usize,
    columns: usize,
    first: usize,
    second: usize,
    p: usize,
    differences: &[u8],
    counters: &mut [u16],
)
    requires checkable_matrix { CheckableMatrix entries.now rows columns p }
    requires first_lt_columns { (first < columns) × (second < columns) }
    requires differences_of { DifferencesOf p (p * p) differences.now }
    requires cleared { Cleared counters.old }
    ensures { Tallied counters.new rows (row_difference (matrix_of entries.now rows columns p) first second) }
{
    // By index: over `chunks_exact` the check of a matrix takes 1.2 times the instructions.
    for row in 0..rows {
        let start = row * columns;
        let x = entries[start + first] as usize;
        let y = entries[start + second] as usize;
        let key = differences[x * p + y] as usize;
        counters[key] += 1;
    }
}

// The difference of any two entries x and y, at x times p plus y: what, added to y, gives x. It is made once for a matrix, so that a row costs a
// look-up and neither a sum nor a branch.
pub fn difference_table(p: usize) -> [u8; 4096]
    requires { (1 ≤ p) × (p ≤ 64) }
    ensures { DifferencesOf p (p * p) result }
{
    let mut differences = [0u8; 4096];
    for place in 0..p * p {
        let difference = (place / p) as u8;
        let y = place % p;
        let x = level_sum(p as u8, difference, y as u16) as usize;
        differences[x * p + y] = difference;
    }
    differences
}
