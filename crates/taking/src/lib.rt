// Step 1, TAKE i: the sheet is table i.
#![tactic(auto)]

ghost use Rattle.std.specs.Prelude.{◌≤◌, length};
ghost use Rattle.layout.specs.Bytes.{Zeros};
ghost use Rattle.layout.specs.Step.{Readable, Stands, first_in, Left};

use ingredients::named::{NamedTable, table_named};
use sheets::answer::{Answer, Refusal};
use spare::sheet_answer;
use table_putting::{put_level_counts, put_runs};
use table_sizes::{column_count, run_count};

// A table that is named is never too large: it keeps the limits of the order (question 2).
pub fn take(list: &[u16], at: usize, table: &mut [u8], levels: &mut [u8]) -> Answer
    requires stands { Stands list.now 1 at }
    requires readable { Readable list.now }
    requires in_bounds { (65536 ≤ length table.old) × Zeros table.old }
    requires in_bounds_2 { (128 ≤ length levels.old) × Zeros levels.old }
    ensures { Left (first_in list.now 1 at) table.old levels.old result table.new levels.new }
{
    let named = table_named(list, list[at] as usize);
    if let NamedTable::Missing = named {
        return Answer::Refused(Refusal::StepNotAllowed { step: 1 });
    }
    put_runs(list, named, table);
    put_level_counts(list, named, levels, 0);
    sheet_answer(run_count(list, named), column_count(list, named), levels)
}
