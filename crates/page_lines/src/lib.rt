// The lines of a page that have no levels: the first one, and one that is not used (document 02, K3). Each function puts a line of 79 characters and a
// line feed into a buffer from a place on, leaves the rest of it, and returns the place after the line.
#![tactic(auto)]

ghost use Rattle.std.specs.Prelude.{[], ◌++◌, map, suc, ◌+◌, ◌-◌, ◌≤◌, ◌<◌, length};
ghost use Rattle.finite.specs.Lists.{from};
ghost use Rattle.buffers.specs.Put.{Put};
ghost use Rattle.page_text.specs.Pages.{right_aligned, in_three, closed};

use line_parts::{close_line, put_column_numbers};
use right_aligned::put_in_four;

// The page number, and the numbers of the columns from first to before end, which are printed from 1.
pub fn put_number_line(buf: &mut [u8], at: usize, number: usize, first: usize, end: usize) -> usize
    requires { (number < 1000) × (first ≤ end) × (end ≤ first + 25) × (end < 1000) × (at + 80 ≤ length buf.old) }
    ensures { Put buf.old at (closed (right_aligned 4 number ++ in_three (map suc (from first (end - first))))) buf.new result }
{
    let after_number = put_in_four(buf, at, number);
    let after_columns = put_column_numbers(buf, after_number, first, end);
    close_line(buf, after_columns, at + 79)
}

// An unused line.
pub fn put_blank_line(buf: &mut [u8], at: usize) -> usize
    requires { at + 80 ≤ length buf.old }
    ensures { Put buf.old at (closed []) buf.new result }
{
    close_line(buf, at, at + 79)
}
