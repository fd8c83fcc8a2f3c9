// What is printed of the check of a table (document 02, K5 and K8). It is put whole into a buffer, so that a program only has to read, to check and to write.
#![tactic(auto)]

ghost use Rattle.std.specs.Prelude.{◌+◌, ◌≤◌, length};
ghost use Rattle.buffers.specs.Put.{Put};
ghost use Rattle.check_report.specs.CheckReport.{passing_line, gap_line, pairs_line, check_printed, check_room};

use buffers::{put_byte, put_bytes};
use decimals::{put_number, put_signed};
use report::put_refused;
use sheets::answer::Refusal;
use written_table::TableCheck;

// The whole of what is printed of a check, at the front of a buffer.
pub fn put_check(buf: &mut [u8], check: TableCheck) -> usize
    requires { check_room ≤ length buf.old }
    ensures { Put buf.old 0 (check_printed check) buf.new result }
{
    let passing = check.passing;
    let after_passing = put_passing(&mut buf[..155], passing);
    let after_gap = put_gap(buf, after_passing, check.gap);
    put_pairs(buf, after_gap, check.pairs)
}

// The first line, at the front of a buffer: that the table passes, or the refusal.
fn put_passing(buf: &mut [u8], passing: Result<(), Refusal>) -> usize
    requires { 155 ≤ length buf.old }
    ensures { Put buf.old 0 (passing_line passing) buf.new result }
{
    match passing {
        Ok(()) => put_bytes(buf, 0, b"passes\n"),
        Err(why) => put_refused(buf, why),
    }
}

// The line of the gap, from a place of the buffer on.
fn put_gap(buf: &mut [u8], at: usize, gap: i64) -> usize
    requires { at + 25 ≤ length buf.old }
    ensures { Put buf.old at (gap_line gap) buf.new result }
{
    let after_word = put_bytes(buf, at, b"gap ");
    let after_gap = put_signed(buf, after_word, gap);
    put_byte(buf, after_gap, b'\n')
}

// The line of the pairs of columns, from a place of the buffer on.
fn put_pairs(buf: &mut [u8], at: usize, pairs: usize) -> usize
    requires { at + 27 ≤ length buf.old }
    ensures { Put buf.old at (pairs_line pairs) buf.new result }
{
    let after_word = put_bytes(buf, at, b"pairs ");
    let after_pairs = put_number(buf, after_word, pairs);
    put_byte(buf, after_pairs, b'\n')
}
