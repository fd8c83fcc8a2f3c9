// An order planned, and what is printed of it put into one buffer: what the planner and the comparison with stored answers both rest on.
#![tactic(auto)]

ghost use Rattle.std.specs.Prelude.{◌≤◌, length};
ghost use Rattle.buffers.specs.Put.{Put};
ghost use Rattle.promise.specs.Promise.{planned, Promise};
ghost use Rattle.report.specs.Report.{answer_room, outcome_printed};

use construction::plan;
use report::put_answer;
use sheets::answer::Answer;

// An answer, and the end of what is printed of it.
#[derive(Clone, Copy)]
pub struct Printed {
    pub answer: Answer,
    pub end: usize,
}

// Plans an order in three buffers, as `plan` does, and puts what is printed of it at the front of a fourth.
pub fn plan_and_put(
    list: &[u16],
    table: &mut [u8],
    levels: &mut [u8],
    scratch: &mut [u8],
    buf: &mut [u8],
) -> Printed
    requires { answer_room ≤ length buf.old }
    ensures promise { Promise list.now table.old levels.old scratch.old result.answer table.new levels.new scratch.new }
    ensures put { Put buf.old 0 (outcome_printed (planned list.now (length table.old) (length levels.old) (length scratch.old))) buf.new result.end }
{
    let answer = plan(list, table, levels, scratch);
    let end = put_answer(buf, answer, levels, table);
    Printed { answer, end }
}
