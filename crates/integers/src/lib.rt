// Signed numbers: the difference of two numbers, how large one is with its sign ignored, and the laws of both (proofs/).
#![tactic(auto)]

ghost use Rattle.std.specs.Prelude.{◌≡◌, ◌^◌, ◌<◌, pos, ◌-ℤ◌, nat_abs};

// A number less another.
pub fn difference(more: usize, less: usize) -> i64
    requires { (more < 2 ^ 62) × (less < 2 ^ 62) }
    ensures { result ≡ pos more -ℤ pos less }
{
    more as i64 - less as i64
}

// The size of a number, its sign ignored.
pub fn magnitude(value: i64) -> usize
    ensures { result ≡ nat_abs value }
{
    value.unsigned_abs() as usize
}
