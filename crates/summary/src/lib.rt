// What is printed of records, each of which is an order with its stored answer.
#![tactic(auto)]

use record_counts::Tally;
use std::io;

pub fn print_difference(rt: &impl Print, record: usize) -> io::Result<()> {
    println!(rt; "record {record} differs")
}

// How many there are of something, on a line.
fn print_line(rt: &impl Print, what: &[u8], many: usize) -> io::Result<()> {
    rt.write_all(what)?;
    println!(rt; ": {many}")
}

// How many came to an answer.
fn print_answers(rt: &impl Print, number: usize, many: usize) -> io::Result<()> {
    if number == 0 {
        return print_line(rt, b"filled", many);
    }
    print!(rt; "refused as {number}")?;
    print_line(rt, b"", many)
}

pub fn print_counts(rt: &impl Print, counts: &[usize], tally: Tally) -> io::Result<()> {
    print_line(rt, b"records", tally.records)?;
    for (number, many) in counts.iter().enumerate() {
        print_answers(rt, number, *many)?;
    }
    print_line(rt, b"differing", tally.differing)
}
