// The sheet that step 4, MERGE p, c1 .. c(p+1), leaves: its runs, row by row, and its level counts, put in the place of the sheet in hand.
#![tactic(auto)]

ghost use Rattle.std.specs.Prelude.{◌*◌, ◌≤◌, length};
ghost use Rattle.buffers.specs.Put.{Put};
ghost use Rattle.counting.specs.Table.{table_of};
ghost use Rattle.step_tables.specs.Merge.{merge_step};
ghost use Rattle.sheets.specs.Steps.{filled};
ghost use Rattle.layout.specs.Bytes.{Zeros, runs_of, sheet_in};
ghost use Rattle.layout.specs.Step.{Left};
ghost use Rattle.merge_questions.specs.Questions.{members_of, Fitting, HasRoles};
ghost use Rattle.merged_rows.specs.MergedRow.{HasStops};
ghost use Rattle.merged_sheet.specs.Merged.{Mergeable};

use layout::Size;
use merge_questions::column_of;
use merged_rows::{find_stops, merge_row, merged_level};
use settling::settle;
use sheets::answer::Answer;

// Builds the new sheet and puts it in the place of the sheet in hand.
pub fn merge_sheet(
    members: &[u16],
    p: usize,
    roles: &[u8],
    size: Size,
    table: &mut [u8],
    levels: &mut [u8],
    scratch: &mut [u8],
) -> Answer
    requires { Mergeable p members.now roles.now size table.old levels.old scratch.old }
    ensures left { Left (filled (merge_step p (members_of members.now) (sheet_in table.old levels.old size))) table.old levels.old result table.new levels.new }
    ensures zeros { Zeros scratch.new }
{
    let runs = size.runs;
    let columns = size.columns;
    let mut stops = [0u8; 129];
    find_stops(roles, columns, &mut stops);
    let built = merge_runs(
        members,
        p,
        roles,
        &stops,
        table,
        &levels[..columns],
        runs,
        scratch,
    );
    let mut counts = [0u8; 128];
    let left = merge_row(
        &levels[..columns],
        roles,
        &stops,
        (p * p) as u8,
        &mut counts,
        0,
    );
    settle(
        runs * columns,
        columns,
        built,
        &counts[..left],
        table,
        levels,
        scratch,
    );
    let spare = size.spare;
    Answer::Filled {
        runs,
        columns: left,
        spare,
    }
}

// Puts the runs of the new sheet into the scratch, one after the other, and returns the place after them.
fn merge_runs(
    members: &[u16],
    p: usize,
    roles: &[u8],
    stops: &[u8],
    table: &[u8],
    levels: &[u8],
    runs: usize,
    scratch: &mut [u8],
) -> usize
    requires fitting { Fitting p members.now table.now levels.now runs }
    requires levels_in_bounds { (length levels.now ≤ length roles.now) × HasRoles (members_of members.now) roles.now }
    requires has_stops { HasStops roles.now (length levels.now) stops.now }
    requires levels_in_bounds_2 { runs * length levels.now ≤ length scratch.old }
    ensures { Put scratch.old 0 (runs_of (merge_step p (members_of members.now) (table_of table.now levels.now runs))) scratch.new result }
{
    let c1 = column_of(members, 0);
    let c2 = column_of(members, 1);
    let columns = levels.len();
    let mut place = 0;
    for run in 0..runs {
        let start = run * columns;
        let row = &table[start..start + columns];
        let merged = merged_level(row, p, c1, c2);
        place = merge_row(row, roles, stops, merged, scratch, place);
    }
    place
}
