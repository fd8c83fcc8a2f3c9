// An order planned, and what is printed on paper of it put into one buffer (document 02, K3).
#![tactic(auto)]

ghost use Rattle.std.specs.Prelude.{◌≤◌, length};
ghost use Rattle.buffers.specs.Put.{Put};
ghost use Rattle.promise.specs.Promise.{planned};
ghost use Rattle.page_report.specs.PageReport.{outcome_pages, page_room};

use construction::plan;
use page_argument::Asked;
use page_report::put_asked;
use report::put_refused;
use sheets::answer::Answer;

// Plans an order in three buffers, as `plan` does, and puts the pages that are asked for, or the refusal, at the front of a fourth.
pub fn plan_and_put_pages(
    list: &[u16],
    table: &mut [u8],
    levels: &mut [u8],
    scratch: &mut [u8],
    asked: Asked,
    buf: &mut [u8],
) -> usize
    requires { page_room ≤ length buf.old }
    ensures { Put buf.old 0 (outcome_pages asked (planned list.now (length table.old) (length levels.old) (length scratch.old))) buf.new result }
{
    let answer = plan(list, table, levels, scratch);
    match answer {
        Answer::Filled {
            runs,
            columns,
            spare: _,
        } => put_asked(asked, table, levels, runs, columns, buf),
        Answer::Refused(why) => put_refused(buf, why),
    }
}
