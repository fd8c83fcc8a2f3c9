// The planner: reads an order as decimal numbers from standard input and prints the run table or the refusal (document 01, "Printed runs"). Its own
// part is to put the whole answer to what is read into one buffer, and to write that at once.
#![tactic(auto)]

ghost use Rattle.std.specs.Prelude.{◌≡◌, ◌≤◌, length, take};
ghost use Rattle.buffers.specs.Put.{Put};
ghost use Rattle.sheets.specs.Outcome.{outcome};
ghost use Rattle.words.specs.Scanner.{scanned_reading, Ended};
ghost use Rattle.report.specs.Report.{outcome_printed, reading_printed, answer_room};
ghost use Rattle.input.specs.Answering.{Answering};

use input::scan_input;
use printing::plan_and_put;
use report::put_refused;
use sheets::answer::Refusal;
use std::io;
use std::io::Read;
use words::BadWord;

fn main(rt: HostRuntime) -> io::Result<()> {
    let mut out = answer_room();
    let end = answer_input(&mut rt.stdin(), &mut out);
    write_answer(&rt, &out[..end])
}

// Writes an answer, and nothing else.
fn write_answer(rt: &impl Print, bytes: &[u8]) -> io::Result<()>
    requires { Answering bytes.now }
{
    rt.write_all(bytes)
}

// Room for any answer. The contract tells the length alone, so that no proof writes the zeros out.
fn answer_room() -> [u8; 263682]
    ensures { 263682 ≡ length result }
{
    [0; 263682]
}

// Puts what is printed for standard input, whole, at the front of a buffer.
fn answer_input<R: Read>(reader: &mut R, out: &mut [u8]) -> usize
    requires { answer_room ≤ length out.old }
    ensures { (result ≤ length out.new) × Answering (take result out.new) }
{
    let mut list = [0u16; 32768];
    let scanned = scan_input(reader, &mut list);
    put_scanned(scanned, &list, out)
}

// Puts what is printed for a text that comes to this: the answer to its numbers, or the refusal of a word.
fn put_scanned(scanned: Result<usize, BadWord>, list: &[u16], out: &mut [u8]) -> usize
    requires ended { Ended 32768 scanned list.now }
    requires answer_room_in_bounds { answer_room ≤ length out.old }
    ensures { Put out.old 0 (reading_printed (scanned_reading (scanned, list.now))) out.new result }
{
    match scanned {
        Ok(count) => put_plan(&list[..count], out),
        Err(BadWord { place }) => put_refused(out, Refusal::Unreadable { place }),
    }
}

// Plans a list of numbers and puts what is printed of the answer.
fn put_plan(list: &[u16], out: &mut [u8]) -> usize
    requires { answer_room ≤ length out.old }
    ensures { Put out.old 0 (outcome_printed (outcome list.now)) out.new result }
{
    let mut table = [0u8; 65536];
    let mut levels = [0u8; 128];
    let mut scratch = [0u8; 65536];
    let printed = plan_and_put(list, &mut table, &mut levels, &mut scratch, out);
    printed.end
}
