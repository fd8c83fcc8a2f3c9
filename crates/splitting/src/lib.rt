// Step 5, SPLIT c, i: column c gives way, in its place, to the columns of table i, in which the column's level is the row, from 0.
// Columns count from 0 here.
#![tactic(auto)]

ghost use Rattle.layout.specs.Bytes.{Zeros, sheet_in};
ghost use Rattle.layout.specs.Step.{Stands, Ready, later_in, Left};

use ingredients::named::{NamedTable, table_named};
use layout::Size;
use sheets::answer::{Answer, Refusal};
use split_sheet::split_column;
use table_put_in::{parts_fit, table_spare};
use table_sizes::column_count;

// The questions come before any byte is written.
pub fn split(
    list: &[u16],
    at: usize,
    number: usize,
    size: Size,
    table: &mut [u8],
    levels: &mut [u8],
    scratch: &mut [u8],
) -> Answer
    requires stands { Stands list.now 5 at }
    requires ready { Ready list.now size table.old levels.old scratch.old }
    ensures left { Left (later_in list.now number (sheet_in table.old levels.old size) 5 at) table.old levels.old result table.new levels.new }
    ensures zeros { Zeros scratch.new }
{
    let named = table_named(list, list[at + 1] as usize);
    if let NamedTable::Missing = named {
        return Answer::Refused(Refusal::StepNotAllowed { step: number });
    }
    let c = list[at] as usize - 1;
    let width = size.columns;
    if !parts_fit(list, named, c, &levels[..width]) {
        return Answer::Refused(Refusal::PartsDoNotFit { step: number });
    }
    let runs = size.runs;
    let columns = width - 1 + column_count(list, named);
    if columns > 128 {
        return Answer::Refused(Refusal::TooLarge {
            step: number,
            runs,
            columns,
        });
    }
    split_column(list, named, c, size, table, levels, scratch);
    let spare = size.spare + table_spare(list, named);
    Answer::Filled {
        runs,
        columns,
        spare,
    }
}
