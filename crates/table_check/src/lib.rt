// The check of a table: every level of every column, then every pair of levels of every two columns, counted over the runs.
#![tactic(auto)]

ghost use Rattle.std.specs.Prelude.{◌≡◌, ◌<◌, length};
ghost use Rattle.counting.specs.Table.{table_of};
ghost use Rattle.counting.specs.Checkable.{CheckableTable};
ghost use Rattle.finite.specs.Pairs.{ordinal};
ghost use Rattle.counting.specs.Verdict.{table_finding, columns_fault, pairs_fault, farthest_verdict, verdict_of, table_verdict};
ghost use Rattle.tally.specs.Tally.{Cleared};

use counting::verdict::{TableFault, TableVerdict};
use finite::pairs::IndexPair;
use level_counts::{farthest_levels, levels_deviation};

// The verdict on the table whose runs lie one after the other in `cells`.
pub fn check_table(cells: &[u8], levels: &[u8], runs: usize) -> TableVerdict
    requires { CheckableTable cells.now levels.now runs }
    ensures { result ≡ table_verdict (table_of cells.now levels.now runs) }
{
    let mut counters = [0u16; 4096];
    match uneven_column(cells, levels, runs, &mut counters) {
        Err(fault) => TableVerdict {
            finding: Err(fault),
            gap: 0,
            pairs: 0,
        },
        Ok(()) => uneven_pair(cells, levels, runs, &mut counters),
    }
}

// The first column with an uneven level.
fn uneven_column(
    cells: &[u8],
    levels: &[u8],
    runs: usize,
    counters: &mut [u16],
) -> Result<(), TableFault>
    requires checkable_table { CheckableTable cells.now levels.now runs }
    requires cleared { Cleared counters.old }
    ensures value { result ≡ table_finding (columns_fault (table_of cells.now levels.now runs)) }
    ensures cleared_2 { result ≡ Ok tt → Cleared counters.new }
{
    for (column, s) in levels.iter().enumerate() {
        let n = *s as usize;
        let found = levels_deviation(cells, runs, levels.len(), column, 0, column, n, counters);
        if let Some(deviation) = found {
            return Err(TableFault::Column {
                column: column + 1,
                level: deviation.value,
                times: deviation.times,
            });
        }
    }
    Ok(())
}

// The first two columns with an uneven pair of levels. A pair of columns is counted with each step, and past the last one the place is one more than there are
// pairs (02, K8).
fn uneven_pair(cells: &[u8], levels: &[u8], runs: usize, counters: &mut [u16]) -> TableVerdict
    requires checkable_table { CheckableTable cells.now levels.now runs }
    requires cleared { Cleared counters.old }
    ensures { result ≡ verdict_of (table_of cells.now levels.now runs) (pairs_fault (table_of cells.now levels.now runs)) }
{
    // A `while`: the place of the pair past the last, which ends it, tells how many pairs there are.
    let mut pair = IndexPair::start();
    while pair.second < levels.len() {
        let first = pair.first;
        let second = pair.second;
        let s = levels[first] as usize;
        let t = levels[second] as usize;
        if levels_deviation(
            cells,
            runs,
            levels.len(),
            first,
            t,
            second,
            s * t,
            counters,
        ).is_some()
        {
            return farthest_pair(cells, levels, runs, pair);
        }
        pair = pair.next(levels.len());
    }
    TableVerdict {
        finding: Ok(()),
        gap: 0,
        pairs: pair.ordinal - 1,
    }
}

// The verdict on two columns with an uneven pair of levels: of their pairs it names the one that is farthest off (02, K5).
fn farthest_pair(cells: &[u8], levels: &[u8], runs: usize, pair: IndexPair) -> TableVerdict
    requires checkable_table { CheckableTable cells.now levels.now runs }
    requires first_lt_second { (pair.first < pair.second) × (pair.second < length levels.now) }
    requires ordinal_value { pair.ordinal ≡ ordinal (length levels.now) pair.first pair.second }
    ensures { result ≡ farthest_verdict (table_of cells.now levels.now runs) pair.first pair.second }
{
    let first = pair.first;
    let second = pair.second;
    let s = levels[first] as usize;
    let t = levels[second] as usize;
    let farthest = farthest_levels(cells, runs, levels.len(), first, t, second, s * t);
    TableVerdict {
        finding: Err(TableFault::Pair {
            first: first + 1,
            second: second + 1,
            first_level: farthest.value / t,
            second_level: farthest.value % t,
            times: farthest.times,
        }),
        gap: farthest.gap,
        pairs: pair.ordinal,
    }
}
