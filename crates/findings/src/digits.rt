// Arrays are written as digits, as the papers print them.
ghost use Rattle.std.specs.Prelude.{◌≡◌, ◌≤◌, length, take};
ghost use Rattle.findings.specs.Digits.{digit_values};

// Puts the values of a text's digits at the start of `cells`.
pub fn digit_values(text: &[u8], cells: &mut [u8])
    requires { length text.now ≤ length cells.old }
    ensures { take (length text.now) cells.new ≡ digit_values text.now }
{
    for (i, digit) in text.iter().enumerate() {
        cells[i] = *digit % 16;
    }
}
