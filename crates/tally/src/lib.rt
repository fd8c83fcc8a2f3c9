// A counter for each of up to 4,096 level pairs, shared by the checks of a table and of a matrix: filled over the runs, then read once and set back
// to zero.
#![tactic(auto)]

ghost use Rattle.std.specs.Prelude.{◌≡◌, ℕ, ◌≤◌, length, get_or};
ghost use Rattle.counting.specs.Verdict.{deviation};
ghost use Rattle.tally.specs.Tally.{Cleared, as_deviation};

// A value that does not stand in its share of the runs, with the number of runs in which it stands.
#[derive(Clone, Copy)]
pub struct Deviation {
    pub value: usize,
    pub times: usize,
}

// The lowest of n values whose counter is not the n-th part of the runs, or `None` where each is. Each counter that is
// read is set back to zero.
pub fn first_deviation(counters: &mut [u16], n: usize, runs: usize) -> Option<Deviation>
    requires { (length counters.old ≡ 4096) × (n ≤ 4096) }
    ensures value { result ≡ as_deviation (deviation n runs (λ v. get_or counters.old v 0)) }
    ensures cleared { result ≡ None
        → ((v : ℕ) → n ≤ v → get_or counters.old v 0 ≡ 0)
        → Cleared counters.new }
{
    for value in 0..n {
        let times = counters[value] as usize;
        counters[value] = 0;
        if n * times != runs {
            return Some(Deviation { value, times });
        }
    }
    None
}
