// Powers; and sums, counts and first finds over the numbers below n, lists of numbers, digits and tabulated values, for the proofs of the crates
// above: their definitions are in specs/, their laws in proofs/.
#![tactic(auto)]

pub mod pairs; // pairs.rt: the pairs of the numbers below n, one after the other

ghost use Rattle.std.specs.Prelude.{◌≡◌, ◌^◌, ◌≤◌, ◌<◌};

// s to the n-th power. Where s is 1, n may be any number, so that std's `pow`, whose exponent is a u32, does not serve.
pub fn power(s: usize, n: usize) -> usize
    requires { (0 < s) × (s ^ n ≤ 4294967296) }
    ensures { result ≡ s ^ n }
{
    let mut product = 1;
    for _i in 0..n {
        product *= s;
    }
    product
}
