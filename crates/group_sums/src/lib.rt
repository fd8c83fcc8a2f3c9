// The sum of levels that goes with p (02, K2): in the field of p elements for p = 4, 8 and 9, and modulo p for every other p.
#![tactic(auto)]

ghost use Rattle.std.specs.Prelude.{◌≡◌, ◌+◌, ◌%◌, ◌<◌};
ghost use Rattle.galois.specs.Levels.{over_field, level_sum};

// Whether the sums are those of a field.
#[tactic(auto, unfolding(galois::specs::Levels::over_field))]
pub fn over_field(p: u8) -> bool
    ensures { result ≡ over_field p }
{
    p == 4 || p == 8 || p == 9
}

// The sum of two numbers below p, modulo p.
pub fn modulo_sum(p: u8, a: u8, b: u16) -> u8
    requires { (a < p) × (b < p) }
    ensures { result ≡ (a + b) % p }
{
    let total = a as u16 + b;
    if total < p as u16 {
        total as u8
    } else {
        (total - p as u16) as u8
    }
}

// The sum of two levels.
pub fn level_sum(p: u8, a: u8, b: u16) -> u8
    requires { (a < p) × (b < p) }
    ensures { result ≡ level_sum p a b }
{
    if over_field(p) {
        field_sums::sum(p, a, b as u8)
    } else {
        modulo_sum(p, a, b)
    }
}
