// How far off the values are whose counters a check has filled, and which of them is farthest off (02, K5).
#![tactic(auto)]

ghost use Rattle.std.specs.Prelude.{◌≡◌, ◌≤◌, ◌<◌, length, get_or};
ghost use Rattle.gaps.specs.Gaps.{discrepancy, farthest_off};

use integers::{difference, magnitude};

// A value, in how many runs it stands, and its gap: below zero where it is short, above where it is over.
#[derive(Clone, Copy)]
pub struct Discrepancy {
    pub value: usize,
    pub times: usize,
    pub gap: i64,
}

// The one of n values whose gap is largest in size, its sign ignored, and the lowest among equals.
pub fn farthest_off(counters: &[u16], n: usize, runs: usize) -> Discrepancy
    requires { (length counters.now ≡ 4096) × (n ≤ 4096) × (runs ≤ 512) }
    ensures { result ≡ farthest_off n runs (λ v. get_or counters.now v 0) }
{
    let mut farthest = discrepancy_at(counters, 0, n, runs);
    for value in 0..n {
        let next = discrepancy_at(counters, value, n, runs);
        if magnitude(farthest.gap) < magnitude(next.gap) {
            farthest = next;
        }
    }
    farthest
}

// How far off a value is that should stand in the n-th part of the runs.
fn discrepancy_at(counters: &[u16], value: usize, n: usize, runs: usize) -> Discrepancy
    requires { (value < length counters.now) × (n ≤ 4096) × (runs ≤ 512) }
    ensures { result ≡ discrepancy n runs (λ v. get_or counters.now v 0) value }
{
    let times = counters[value] as usize;
    Discrepancy {
        value,
        times,
        gap: difference(n * times, runs),
    }
}
