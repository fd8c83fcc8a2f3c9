// Calls of `check_written` as they are stored in `stdin`, and what is answered. A call is the numbers
//
//     L a1 .. aL
//
// for a list of the L numbers a1 .. aL. Of each is written a line: the seven numbers of the answer, the gap, and the pairs of columns that were
// counted. The file `stdout`, with which this is compared, is made by the second implementation.
#![tactic(auto)]

ghost use Rattle.std.specs.Prelude.{◌≤◌, ◌<◌, length};

use decimals::put_signed;
use input::scan_input;
use std::io;
use stored_calls::least;
use written_check::{check_numbers, check_written};
use written_table::TableCheck;

fn main(rt: HostRuntime) -> io::Result<()> {
    let mut list = [0u16; 32768];
    match scan_input(&mut rt.stdin(), &mut list) {
        Ok(count) => answer_first(&rt, &list, count),
        Err(_) => Ok(()),
    }
}

// Answers the calls that so many numbers at the front of a list hold.
fn answer_first(rt: &impl Print, list: &[u16], count: usize) -> io::Result<()> {
    let end = least(count, list.len());
    answer_calls(rt, &list[..end])
}

// Answers the calls that a list holds, one after the other. It is a `while`, since each call says where the next one
// stands.
fn answer_calls(rt: &impl Print, list: &[u16]) -> io::Result<()> {
    let mut at = 0;
    while at < list.len() {
        at = answer_call(rt, list, at);
    }
    Ok(())
}

// Answers the call at a place of a list, and returns the place after it. A call that runs past the end of the list ends there.
fn answer_call(rt: &impl Print, list: &[u16], at: usize) -> usize
    requires { at < length list.now }
    ensures { (at < result) × (result ≤ length list.now) }
{
    let start = at + 1;
    let end = start + least(wide(list[at]), list.len() - start);
    match write_check(rt, check_written(&list[start..end])) {
        Ok(()) => {}
        Err(_) => {}
    }
    end
}

// A number of the list as a length.
fn wide(number: u16) -> usize {
    number as usize
}

// Writes the line of an answer.
fn write_check(rt: &impl Print, check: TableCheck) -> io::Result<()> {
    for number in check_numbers(check.passing) {
        print!(rt; "{number} ")?;
    }
    write_gap(rt, check.gap)?;
    write_pairs(rt, check.pairs)
}

// Writes the gap, and a blank after it.
fn write_gap(rt: &impl Print, gap: i64) -> io::Result<()> {
    let mut digits = [0u8; 20];
    let end = put_signed(&mut digits, 0, gap);
    rt.write_all(&digits[..end])?;
    rt.write_all(b" ")
}

// Writes the pairs of columns, and ends the line.
fn write_pairs(rt: &impl Print, pairs: usize) -> io::Result<()> {
    println!(rt; "{pairs}")
}
