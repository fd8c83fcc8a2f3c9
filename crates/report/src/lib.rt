// What a program prints of an answer: document 01, "Printed runs". It is put whole into a buffer, so that a program only has to read, to plan and to
// write.
#![tactic(auto)]

ghost use Rattle.std.specs.Prelude.{◌≤◌, length};
ghost use Rattle.buffers.specs.Put.{Put};
ghost use Rattle.report.specs.Report.{refusal_line, answer_printed, answer_room, Printable};

use lines::put_refusal;
use numbering::numbers_of;
use printed_table::put_table;
use sheets::answer::{Answer, Refusal};

// The one line of a refusal, at the front of a buffer.
pub fn put_refused(buf: &mut [u8], why: Refusal) -> usize
    requires { 155 ≤ length buf.old }
    ensures { Put buf.old 0 (refusal_line why) buf.new result }
{
    put_refusal(buf, 0, numbers_of(why))
}

// The whole of what is printed of an answer, at the front of a buffer. The level counts and the cells are those that came with the answer.
pub fn put_answer(buf: &mut [u8], answer: Answer, levels: &[u8], cells: &[u8]) -> usize
    requires answer_room_in_bounds { answer_room ≤ length buf.old }
    requires printable { Printable answer levels.now cells.now }
    ensures { Put buf.old 0 (answer_printed answer levels.now cells.now) buf.new result }
{
    match answer {
        Answer::Filled {
            runs,
            columns,
            spare,
        } => put_table(buf, runs, columns, spare, levels, cells),
        Answer::Refused(why) => put_refused(buf, why),
    }
}
