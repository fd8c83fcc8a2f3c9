// A sheet that is handed in: when it is refused as 1 (document 02, K3), for every function that takes one.
#![tactic(auto)]

ghost use Rattle.std.specs.Prelude.{◌≡◌, ◌+◌, ◌*◌, ◌≤◌, ltb, length, get_or};
ghost use Rattle.finite.specs.Sum.{every};
ghost use Rattle.given_sheet.specs.Given.{size_within, counts_within, entries_below, well_formed};

// Whether a sheet is taken: its runs, columns and level counts are within the limits, every entry is below its level count, and both buffers are
// long enough. Runs and columns may be any numbers, so their limits are asked before anything is multiplied or looked up.
pub fn is_well_formed(runs: usize, columns: usize, levels: &[u8], table: &[u8]) -> bool
    ensures { result ≡ well_formed runs columns levels.now table.now }
{
    if !is_size_within(runs, columns) {
        return false;
    }
    if !((columns <= levels.len()) & (runs * columns <= table.len())) {
        return false;
    }
    if !are_counts_within(&levels[..columns]) {
        return false;
    }
    are_entries_below(table, runs, &levels[..columns])
}

// 1 to 512 runs, 1 to 128 columns.
fn is_size_within(runs: usize, columns: usize) -> bool
    ensures { result ≡ size_within runs columns }
{
    (1 <= runs) & (runs <= 512) & (1 <= columns) & (columns <= 128)
}

// Whether every level count is one of 2 to 64.
fn are_counts_within(counts: &[u8]) -> bool
    ensures { result ≡ counts_within (length counts.now) counts.now }
{
    counts.iter().all(|count| 2 <= *count && *count <= 64)
}

// Whether every entry of so many runs is below the level count of its column.
fn are_entries_below(table: &[u8], runs: usize, counts: &[u8]) -> bool
    requires { runs * length counts.now ≤ length table.now }
    ensures { result ≡ entries_below runs (length counts.now) counts.now table.now }
{
    let mut all = true;
    for run in 0..runs {
        all = all & is_run_below(table, run * counts.len(), counts);
    }
    all
}

// The same of the run that starts at a place. Each entry is compared, whatever the ones before it were, so that the compiler can have several compared
// at once.
fn is_run_below(table: &[u8], start: usize, counts: &[u8]) -> bool
    requires { start + length counts.now ≤ length table.now }
    ensures { result ≡ every (length counts.now) (λ c. ltb (get_or table.now (start + c) 0) (get_or counts.now c 0)) }
{
    let mut all = true;
    for (c, count) in counts.iter().enumerate() {
        all = all & (table[start + c] < *count);
    }
    all
}
