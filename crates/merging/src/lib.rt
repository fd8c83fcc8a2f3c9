// Step 4, MERGE p, c1 .. c(p+1): the members, p + 1 columns of p levels, become one column of p × p levels. The list names columns from 1.
#![tactic(auto)]

ghost use Rattle.layout.specs.Bytes.{Zeros, sheet_in};
ghost use Rattle.layout.specs.Step.{Stands, Ready, Left, later_in};

use layout::Size;
use member_check::check_members;
use merge_questions::assign_roles;
use merged_sheet::merge_sheet;
use sheets::answer::{Answer, Refusal};

// Carries out step number `number`, whose operands stand from place `at` on. Question 8 is never answered No: p columns go, and no run comes.
#[tactic(auto, using(crate::proofs::Operands::merge_end))]
pub fn merge(
    list: &[u16],
    at: usize,
    number: usize,
    size: Size,
    table: &mut [u8],
    levels: &mut [u8],
    scratch: &mut [u8],
) -> Answer
    requires stands { Stands list.now 4 at }
    requires ready { Ready list.now size table.old levels.old scratch.old }
    ensures left { Left (later_in list.now number (sheet_in table.old levels.old size) 4 at) table.old levels.old result table.new levels.new }
    ensures zeros { Zeros scratch.new }
{
    let p = list[at] as usize;
    let start = at + 1;
    let end = start + p + 1;
    let members = &list[start..end];
    let runs = size.runs;
    let columns = size.columns;
    let mut roles = [0u8; 128];
    if !assign_roles(members, p, &levels[..columns], &mut roles) {
        return Answer::Refused(Refusal::PartsDoNotFit { step: number });
    }
    let verdict = check_members(members, p, table, &levels[..columns], runs);
    if let Some(fault) = verdict.fault {
        return Answer::Refused(Refusal::NotTheSum {
            step: number,
            run: fault.run,
            member: fault.member,
        });
    }
    merge_sheet(members, p, &roles, size, table, levels, scratch)
}
