// Numbers below 1,000 right-aligned, and the end of a line (document 02, K3). Each function puts bytes into a buffer from a place on, leaves the rest of
// it, and returns the place after them.
#![tactic(auto)]

ghost use Rattle.std.specs.Prelude.{◌≡◌, ◌+◌, ◌-◌, ◌≤◌, ◌<◌, length};
ghost use Rattle.buffers.specs.Put.{Put};
ghost use Rattle.page_text.specs.Pages.{blanks, right_aligned};
ghost use Rattle.right_aligned.specs.Digits.{leading};

use buffers::put_byte;

// A number right-aligned in 3.
pub fn put_in_three(buf: &mut [u8], at: usize, value: usize) -> usize
    requires { (value < 1000) × (at + 3 ≤ length buf.old) }
    ensures { Put buf.old at (right_aligned 3 value) buf.new result }
{
    let after_hundreds = put_byte(buf, at, leading_digit(value / 100));
    let after_tens = put_byte(buf, after_hundreds, leading_digit(value / 10));
    put_byte(buf, after_tens, 48 + (value % 10) as u8)
}

// The last digit of a number that stands before other digits: a blank where there is none, since zeros do not lead.
fn leading_digit(value: usize) -> u8
    ensures { result ≡ leading value }
{
    if value == 0 {
        return b' ';
    }
    48 + (value % 10) as u8
}

// A number right-aligned in 4.
pub fn put_in_four(buf: &mut [u8], at: usize, value: usize) -> usize
    requires { (value < 1000) × (at + 4 ≤ length buf.old) }
    ensures { Put buf.old at (right_aligned 4 value) buf.new result }
{
    let after_blank = put_byte(buf, at, b' ');
    put_in_three(buf, after_blank, value)
}

// Blanks up to a place.
pub fn put_blanks(buf: &mut [u8], at: usize, end: usize) -> usize
    requires { (at ≤ end) × (end ≤ length buf.old) }
    ensures { Put buf.old at (blanks (end - at)) buf.new result }
{
    buf[at..end].fill(b' ');
    end
}
