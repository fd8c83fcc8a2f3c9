// A number in decimal digits, put into a buffer from a place on. The rest of the buffer stays, and the place after the digits is returned.
#![tactic(auto)]

ghost use Rattle.std.specs.Prelude.{◌+◌, ◌≤◌, length};
ghost use Rattle.buffers.specs.Put.{Put};
ghost use Rattle.decimals.specs.Decimals.{decimal_digits, signed_digits};

use buffers::put_byte;
use integers::magnitude;

// A number in decimal: the digits before the last are those of a tenth of it.
pub fn put_number(buf: &mut [u8], at: usize, value: usize) -> usize
    requires { at + length (decimal_digits value) ≤ length buf.old }
    ensures { Put buf.old at (decimal_digits value) buf.new result }
{
    if value < 10 {
        return put_byte(buf, at, 48 + value as u8);
    }
    let place = put_number(buf, at, value / 10);
    put_byte(buf, place, 48 + (value % 10) as u8)
}

// A signed number in decimal, a negative one with its sign.
pub fn put_signed(buf: &mut [u8], at: usize, value: i64) -> usize
    requires { at + length (signed_digits value) ≤ length buf.old }
    ensures { Put buf.old at (signed_digits value) buf.new result }
{
    if value < 0 {
        let place = put_byte(buf, at, b'-');
        return put_number(buf, place, magnitude(value));
    }
    put_number(buf, at, magnitude(value))
}
