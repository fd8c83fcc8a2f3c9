// Bytes put into a lent buffer, and buffers set back to zero. A function that puts bytes puts them from a place on, leaves the rest of the
// buffer, and returns the place after them.
#![tactic(auto)]

ghost use Rattle.std.specs.Prelude.{◌≡◌, [], ◌∷◌, ◌+◌, ◌≤◌, ◌<◌, length, replicate};
ghost use Rattle.buffers.specs.Put.{Put, Bytes};

// One byte.
pub fn put_byte(buf: &mut [u8], at: usize, byte: u8) -> usize
    requires { at < length buf.old }
    ensures { Put buf.old at (byte ∷ []) buf.new result }
{
    buf[at] = byte;
    at + 1
}

// Some bytes. They are put one by one: `copy_from_slice` takes longer for few, and the archive for C would need
// `memmove` from outside.
pub fn put_bytes(buf: &mut [u8], at: usize, bytes: &[u8]) -> usize
    requires { at + length bytes.now ≤ length buf.old }
    ensures { Put buf.old at bytes.now buf.new result }
{
    let mut place = at;
    for byte in bytes {
        place = put_byte(buf, place, *byte);
    }
    place
}

// Some numbers that fit in a byte each.
pub fn put_numbers(buf: &mut [u8], at: usize, numbers: &[u16]) -> usize
    requires numbers_in_bounds { at + length numbers.now ≤ length buf.old }
    requires bytes { Bytes numbers.now }
    ensures { Put buf.old at numbers.now buf.new result }
{
    let mut place = at;
    for number in numbers {
        place = put_byte(buf, place, *number as u8);
    }
    place
}

// Zeros throughout.
pub fn clear(bytes: &mut [u8])
    ensures { bytes.new ≡ replicate (length bytes.old) 0 }
{
    bytes.fill(0);
}
