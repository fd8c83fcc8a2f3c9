// The checker: reads a table as decimal numbers from standard input, written as an ingredient of an order is, and prints whether it passes or why not, the gap,
// and how many pairs of columns were counted (document 02, K5 and K8). What is printed for the text that is read is a definition, `reading_checked` in
// crates/check_report/specs/CheckReport.antt.
#![tactic(auto)]

ghost use Rattle.std.specs.Prelude.{◌≡◌, ◌≤◌, length, take};
ghost use Rattle.buffers.specs.Put.{Put};
ghost use Rattle.words.specs.Scanner.{scanned_reading, Ended};
ghost use Rattle.sheets.specs.declared.answer.Refusal.TheVariants.{Unreadable};
ghost use Rattle.written_table.specs.WrittenTable.{refused_check, table_check};
ghost use Rattle.input.specs.Answering.{AnsweringBy};
ghost use Rattle.check_report.specs.CheckReport.{check_printed, reading_checked, check_room};

use check_report::put_check;
use input::scan_input;
use sheets::answer::Refusal;
use std::io;
use std::io::Read;
use words::BadWord;
use written_check::check_written;
use written_table::TableCheck;

fn main(rt: HostRuntime) -> io::Result<()> {
    let mut out = [0u8; 207];
    let end = answer_input(&mut rt.stdin(), &mut out);
    write_answer(&rt, &out[..end])
}

// Writes an answer, and nothing else.
fn write_answer(rt: &impl Print, bytes: &[u8]) -> io::Result<()>
    requires { AnsweringBy reading_checked bytes.now }
{
    rt.write_all(bytes)
}

// Puts what is printed for standard input, whole, at the front of a buffer.
fn answer_input<R: Read>(reader: &mut R, out: &mut [u8]) -> usize
    requires { check_room ≤ length out.old }
    ensures { (result ≤ length out.new) × AnsweringBy reading_checked (take result out.new) }
{
    let mut list = [0u16; 32768];
    let scanned = scan_input(reader, &mut list);
    put_scanned(scanned, &list, out)
}

// Puts what is printed for a text that comes to this: the check of its numbers, or the refusal of a word.
fn put_scanned(scanned: Result<usize, BadWord>, list: &[u16], out: &mut [u8]) -> usize
    requires ended { Ended 32768 scanned list.now }
    requires check_room_in_bounds { check_room ≤ length out.old }
    ensures { Put out.old 0 (reading_checked (scanned_reading (scanned, list.now))) out.new result }
{
    match scanned {
        Ok(count) => put_written(&list[..count], out),
        Err(BadWord { place }) => put_unreadable(place, out),
    }
}

// Checks the table that a list of numbers writes, and puts what is printed of it.
fn put_written(list: &[u16], out: &mut [u8]) -> usize
    requires { check_room ≤ length out.old }
    ensures { Put out.old 0 (check_printed (table_check list.now)) out.new result }
{
    put_check(out, check_written(list))
}

// Puts what is printed where a word is refused.
fn put_unreadable(place: usize, out: &mut [u8]) -> usize
    requires { check_room ≤ length out.old }
    ensures { Put out.old 0 (check_printed (refused_check (Unreadable place))) out.new result }
{
    put_check(
        out,
        TableCheck {
            passing: Err(Refusal::Unreadable { place }),
            gap: 0,
            pairs: 0,
        },
    )
}
