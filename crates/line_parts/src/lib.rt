// The parts of a line of a page: numbers right-aligned in 3 each, and the end of the line (document 02, K3). Each function puts its part into a buffer
// from a place on, leaves the rest of it, and returns the place after the part.
#![tactic(auto)]

ghost use Rattle.std.specs.Prelude.{[], ◌∷◌, ◌++◌, map, suc, ◌+◌, ◌-◌, ◌*◌, ◌≤◌, ◌<◌, length};
ghost use Rattle.finite.specs.Lists.{from};
ghost use Rattle.buffers.specs.Put.{Put};
ghost use Rattle.page_text.specs.Pages.{blanks};
ghost use Rattle.line_parts.specs.Three.{PutThree};

use buffers::put_byte;
use right_aligned::{put_blanks, put_in_three};

// The numbers of columns, each right-aligned in 3.
pub fn put_column_numbers(buf: &mut [u8], at: usize, first: usize, end: usize) -> usize
    requires { (first ≤ end) × (end < 1000) × (at + 3 * (end - first) ≤ length buf.old) }
    ensures { PutThree (map suc (from first (end - first))) buf.old at buf.new result }
{
    let mut place = at;
    for column in first..end {
        place = put_in_three(buf, place, column + 1);
    }
    place
}

// Byte-sized numbers, each right-aligned in 3.
pub fn put_all_in_three(buf: &mut [u8], at: usize, numbers: &[u8]) -> usize
    requires { at + 3 * length numbers.now ≤ length buf.old }
    ensures { PutThree numbers.now buf.old at buf.new result }
{
    let mut place = at;
    for number in numbers {
        place = put_in_three(buf, place, *number as usize);
    }
    place
}

// Blanks up to the place of the line feed, and the line feed.
pub fn close_line(buf: &mut [u8], at: usize, end: usize) -> usize
    requires { (at ≤ end) × (end < length buf.old) }
    ensures { Put buf.old at (blanks (end - at) ++ (10 ∷ [])) buf.new result }
{
    let after_blanks = put_blanks(buf, at, end);
    put_byte(buf, after_blanks, b'\n')
}
