// Searches and comparisons of bytes.
#![tactic(auto)]

ghost use Rattle.std.specs.Prelude.{◌≡◌, drop};
ghost use Rattle.byte_texts.specs.Bytes.{first_place, same_bytes, all_zero};

// The first place that has a byte, or the length where none has it.
pub fn find(bytes: &[u8], byte: u8) -> usize
    ensures { result ≡ first_place byte bytes.now }
{
    bytes.iter().position(|b| *b == byte).unwrap_or(bytes.len())
}

// Whether two texts are the same.
pub fn same(text: &[u8], other: &[u8]) -> bool
    ensures { result ≡ same_bytes text.now other.now }
{
    text == other
}

// Whether all bytes from a place on are zero. They are gone through by index, so that the compiler can have several
// compared at once.
pub fn zero_from(bytes: &[u8], start: usize) -> bool
    ensures { result ≡ all_zero (drop start bytes.now) }
{
    for at in start..bytes.len() {
        if bytes[at] != 0 {
            return false;
        }
    }
    true
}
