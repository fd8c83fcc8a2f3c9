// An order planned, and what its sheet costs put into one buffer (document 02, K7).
#![tactic(auto)]

ghost use Rattle.std.specs.Prelude.{◌≤◌, length};
ghost use Rattle.buffers.specs.Put.{Put};
ghost use Rattle.promise.specs.Promise.{planned};
ghost use Rattle.charge_report.specs.ChargeReport.{outcome_charged, charge_room};

use charge_report::put_charge;
use construction::plan;
use report::put_refused;
use sheets::answer::Answer;

// Plans an order in three buffers, as `plan` does, and puts the charge by the numbers of a price list, or the refusal, at the front of a fourth.
pub fn plan_and_put_charge(
    list: &[u16],
    table: &mut [u8],
    levels: &mut [u8],
    scratch: &mut [u8],
    numbers: &[u32],
    buf: &mut [u8],
) -> usize
    requires { charge_room ≤ length buf.old }
    ensures { Put buf.old 0 (outcome_charged numbers.now (planned list.now (length table.old) (length levels.old) (length scratch.old))) buf.new result }
{
    let answer = plan(list, table, levels, scratch);
    match answer {
        Answer::Filled {
            runs,
            columns,
            spare: _,
        } => put_charge(numbers, table, levels, runs, columns, buf),
        Answer::Refused(why) => put_refused(buf, why),
    }
}
