// What the programs share that answer stored calls and records: numbers of a list, taken where they stand.
#![tactic(auto)]

ghost use Rattle.std.specs.Prelude.{◌≡◌, ◌+◌, ◌*◌, ◌≤◌, min, get_or};

// The lesser of two numbers.
pub fn least(a: usize, b: usize) -> usize
    ensures { result ≡ min a b }
{
    a.min(b)
}

// The number at a place of a list, or 0 after its end.
pub fn number_at(list: &[u16], at: usize) -> usize
    ensures value { result ≡ get_or list.now at 0 }
    ensures upper_bound { result ≤ 65535 }
{
    list.get(at).copied().unwrap_or(0) as usize
}

// The number of 32 bits at a place of a list, which has its upper half and then its lower one.
pub fn long_number_at(list: &[u16], at: usize) -> usize
    requires { at ≤ 262144 }
    ensures value { result ≡ get_or list.now at 0 * 65536 + get_or list.now (at + 1) 0 }
    ensures upper_bound { result ≤ 4294967295 }
{
    number_at(list, at) * 65536 + number_at(list, at + 1)
}
