// The levels of a table counted over its runs, in one column or in two together.
#![tactic(auto)]

ghost use Rattle.std.specs.Prelude.{◌≡◌};
ghost use Rattle.tally.specs.Tally.{Cleared, Tallied, keys_deviation, as_deviation};
ghost use Rattle.level_counts.specs.Keys.{Keyed, levels_key, farthest_key};

use gaps::{Discrepancy, farthest_off};
use tally::{Deviation, first_deviation};

// The lowest of n keys that is not the key of the n-th part of the runs. A run's key is the level in `first` times `weight` plus the
// level in `second`: with t for the weight it is the number of a pair of levels, with 0 the level in `second` alone.
pub fn levels_deviation(
    cells: &[u8],
    runs: usize,
    columns: usize,
    first: usize,
    weight: usize,
    second: usize,
    n: usize,
    counters: &mut [u16],
) -> Option<Deviation>
    requires keyed { Keyed cells.now runs columns first second n (levels_key cells.now columns first weight second) }
    requires cleared { Cleared counters.old }
    ensures value { result ≡ as_deviation (keys_deviation n runs (levels_key cells.now columns first weight second)) }
    ensures cleared_2 { result ≡ None → Cleared counters.new }
{
    tally_levels(cells, runs, columns, first, weight, second, counters);
    first_deviation(counters, n, runs)
}

// The one of n keys that is farthest off being the key of the n-th part of the runs (02, K5). It is asked of the first two columns that fail, and of no
// others, so it makes counters of its own.
pub fn farthest_levels(
    cells: &[u8],
    runs: usize,
    columns: usize,
    first: usize,
    weight: usize,
    second: usize,
    n: usize,
) -> Discrepancy
    requires { Keyed cells.now runs columns first second n (levels_key cells.now columns first weight second) }
    ensures { result ≡ farthest_key n runs (levels_key cells.now columns first weight second) }
{
    let mut counters = [0u16; 4096];
    tally_levels(cells, runs, columns, first, weight, second, &mut counters);
    farthest_off(&counters, n, runs)
}

// Counts the runs by their key.
fn tally_levels(
    cells: &[u8],
    runs: usize,
    columns: usize,
    first: usize,
    weight: usize,
    second: usize,
    counters: &mut [u16],
)
    requires keyed { Keyed cells.now runs columns first second 4096 (levels_key cells.now columns first weight second) }
    requires cleared { Cleared counters.old }
    ensures { Tallied counters.new runs (levels_key cells.now columns first weight second) }
{
    // By index: over `chunks_exact` the check of a table takes 1.4 times the instructions.
    for run in 0..runs {
        let start = run * columns;
        let key = cells[start + first] as usize * weight + cells[start + second] as usize;
        counters[key] += 1;
    }
}
