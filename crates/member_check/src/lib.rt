// Question 7 of step 4, MERGE p, c1 .. c(p+1): is each member from the third on its sum in every run?
#![tactic(auto)]

ghost use Rattle.std.specs.Prelude.{◌≡◌, length};
ghost use Rattle.finite.specs.Lists.{AllBelow};
ghost use Rattle.counting.specs.Table.{table_of};
ghost use Rattle.merge_questions.specs.Questions.{members_of, Named, Fitting};
ghost use Rattle.member_check.specs.MemberCheck.{LevelsBelow, every_run, run_fault, as_fault, member_verdict, RunsNeeded};

use group_sums::modulo_sum;
use merge_questions::column_of;

// A member that is not its sum: the run, from 0, and the member's number, from 1.
#[derive(Clone, Copy)]
pub struct Fault {
    pub run: usize,
    pub member: usize,
}

// What the check of the members comes to: the first fault, and how many runs it needed (02, K4).
#[derive(Clone, Copy)]
pub struct MemberVerdict {
    pub fault: Option<Fault>,
    pub needed: usize,
}

// Question 7: the lowest run with a member that is not its sum, and the lowest member in it. No run after it is looked at.
pub fn check_members(
    members: &[u16],
    p: usize,
    table: &[u8],
    levels: &[u8],
    runs: usize,
) -> MemberVerdict
    requires { Fitting p members.now table.now levels.now runs }
    ensures value { result ≡ member_verdict p (members_of members.now) (table_of table.now levels.now runs) }
    ensures runs_needed { RunsNeeded p (members_of members.now) (table_of table.now levels.now runs) result.needed }
{
    let columns = levels.len();
    for run in 0..runs {
        let start = run * columns;
        let row = &table[start..start + columns];
        if let Some(fault) = wrong_in_run(members, p, row, run) {
            return MemberVerdict {
                fault: Some(fault),
                needed: run + 1,
            };
        }
    }
    MemberVerdict {
        fault: None,
        needed: runs,
    }
}

// The lowest member of one run that is not its sum. The member at h, from 0, is c1 + (h - 1) × c2 modulo p, so each sum is the one before plus c2, and
// stays below p without a division.
fn wrong_in_run(members: &[u16], p: usize, row: &[u8], run: usize) -> Option<Fault>
    requires named { Named p members.now }
    requires all_below { AllBelow (length row.now) (members_of members.now) }
    requires levels_below { LevelsBelow p (members_of members.now) row.now }
    ensures { result ≡ as_fault (run_fault p (members_of members.now) (every_run row.now) run) }
{
    let modulus = p as u8;
    let c1 = column_of(members, 0);
    let c2 = column_of(members, 1);
    let mut sum = row[c1];
    let second = row[c2] as u16;
    for h in 2..members.len() {
        let column = column_of(members, h);
        sum = modulo_sum(modulus, sum, second);
        if row[column] != sum {
            return Some(Fault { run, member: h + 1 });
        }
    }
    None
}
