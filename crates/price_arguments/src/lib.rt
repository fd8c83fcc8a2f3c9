// The numbers of a price list, as a program is handed them for arguments (document 02, K7).
#![tactic(auto)]

ghost use Rattle.std.specs.Prelude.{◌≡◌};
ghost use Rattle.price_arguments.specs.PriceArguments.{price_in};

// The price that an argument writes, a number of 32 bits, or none. It is read digit by digit up to the first byte that
// is none, or until it is too large.
#[tactic(auto, using(crate::proofs::Prices::returned))]
pub fn price_in(argument: &[u8]) -> Option<u32>
    ensures { result ≡ price_in argument.now }
{
    if argument.len() == 0 {
        return None;
    }
    let mut value = 0u64;
    for &byte in argument {
        if byte < 48 {
            return None;
        }
        if 57 < byte {
            return None;
        }
        value = value * 10 + (byte - 48) as u64;
        if 4294967295 < value {
            return None;
        }
    }
    Some(value as u32)
}
