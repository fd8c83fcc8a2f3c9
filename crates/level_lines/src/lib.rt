// The lines of a page that have levels: level counts, and a run (document 02, K3). Each function puts a line of 79 characters and a line feed into a
// buffer from a place on, leaves the rest of it, and returns the place after the line.
#![tactic(auto)]

ghost use Rattle.std.specs.Prelude.{◌++◌, ◌+◌, ◌≤◌, ◌<◌, length};
ghost use Rattle.buffers.specs.Put.{Put};
ghost use Rattle.page_text.specs.Pages.{blanks, right_aligned, in_three, closed};

use line_parts::{close_line, put_all_in_three};
use right_aligned::{put_blanks, put_in_four};

// Level counts, after 4 blanks.
pub fn put_count_line(buf: &mut [u8], at: usize, counts: &[u8]) -> usize
    requires { (length counts.now ≤ 25) × (at + 80 ≤ length buf.old) }
    ensures { Put buf.old at (closed (blanks 4 ++ in_three counts.now)) buf.new result }
{
    let after_blanks = put_blanks(buf, at, at + 4);
    let after_counts = put_all_in_three(buf, after_blanks, counts);
    close_line(buf, after_counts, at + 79)
}

// The number of a run, and its levels.
pub fn put_run_line(buf: &mut [u8], at: usize, run: usize, levels: &[u8]) -> usize
    requires { (run < 1000) × (length levels.now ≤ 25) × (at + 80 ≤ length buf.old) }
    ensures { Put buf.old at (closed (right_aligned 4 run ++ in_three levels.now)) buf.new result }
{
    let after_number = put_in_four(buf, at, run);
    let after_levels = put_all_in_three(buf, after_number, levels);
    close_line(buf, after_levels, at + 79)
}
