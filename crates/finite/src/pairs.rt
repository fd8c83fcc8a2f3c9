// Two columns or factors, counted from 0, the first before the second. They go 0-1, 0-2, .., then 1-2, and so on; each knows its place in that order, which is
// counted from 1 (02, K8).
ghost use Rattle.std.specs.Prelude.{◌≡◌, ◌≤◌, ◌<◌};
ghost use Rattle.finite.specs.Pairs.{start_pair, next_pair};

#[derive(Clone, Copy)]
pub struct IndexPair {
    pub first: usize,
    pub second: usize,
    pub ordinal: usize,
}

impl IndexPair {
    pub fn start() -> Self
        ensures { result ≡ start_pair }
    {
        Self {
            first: 0,
            second: 1,
            ordinal: 1,
        }
    }

    // The next of the pairs of n; past the last one the second is n. The place goes up to 8,128, which is how many pairs 128 numbers have.
    pub fn next(self, n: usize) -> Self
        requires { (self.first < self.second) × (self.second < n) × (self.ordinal ≤ 8128) }
        ensures { result ≡ next_pair n self }
    {
        let first = self.first;
        let second = self.second;
        let ordinal = self.ordinal + 1;
        if second + 1 < n {
            Self {
                first,
                second: second + 1,
                ordinal,
            }
        } else {
            Self {
                first: first + 1,
                second: first + 2,
                ordinal,
            }
        }
    }
}
