// The check of a table that is handed in by itself, written as an ingredient of an order is (document 02, K5).
#![tactic(auto)]

ghost use Rattle.std.specs.Prelude.{◌≡◌, Ok};
ghost use Rattle.order.specs.Answers.{spot_of};
ghost use Rattle.counting.specs.Verdict.{table_verdict};
ghost use Rattle.ingredients.specs.Named.{table_in};
ghost use Rattle.ingredients.specs.Standing.{TableStands};
ghost use Rattle.ingredients.specs.declared.named.NamedTable.TheVariants.{Own};
ghost use Rattle.entry_range.specs.Search.{scanned};
ghost use Rattle.written_table.specs.WrittenTable.{read_table, refused_check, verdict_check, table_check};
ghost use Rattle.written_table.specs.CheckPromise.{CheckPromise};
ghost use Rattle.written_table.specs.CheckInNumbers.{check_numbers};
ghost use Rattle.written_check.specs.Reading.{to_end, ReadAs};

use counting::verdict::TableVerdict;
use entry_range::first_out_of_range_among;
use list_ingredients::ingredient;
use list_numbers::peek;
use list_verdicts::table_verdict;
use numbering::numbers_of;
use order::{Cursor, Located, RangeFault, Refused};
use sheets::answer::Refusal;
use verdict_answers::table_passing;
use written_table::TableCheck;

// Checks the table that a list writes. Nothing is required of a caller: any list is answered.
pub fn check_written(list: &[u16]) -> TableCheck
    ensures { CheckPromise list.now result }
{
    match read_table(list) {
        Ok((what, _)) => check_entries(list, what),
        Err(refusal) => refused(Refusal::Unreadable {
            place: refusal.place,
        }),
    }
}

// The answer in numbers: zeros for a table that passes, or 01's number of the refusal and its six details.
pub fn check_numbers(passing: Result<(), Refusal>) -> [usize; 7]
    ensures { result ≡ check_numbers passing }
{
    match passing {
        Ok(()) => [0, 0, 0, 0, 0, 0, 0],
        Err(why) => numbers_of(why),
    }
}

// A refusal by question 2 or 3, after which there is no gap, and no pair of columns was counted.
fn refused(why: Refusal) -> TableCheck
    ensures { result ≡ refused_check why }
{
    TableCheck {
        passing: Err(why),
        gap: 0,
        pairs: 0,
    }
}

// Question 2: where the table stands in the list, or where the list is refused.
fn read_table(list: &[u16]) -> Result<(Located, Cursor), Refused>
    ensures { result ≡ spot_of 3 (read_table list.now) }
{
    if 32768 < list.len() {
        return Err(Refused { place: 32768 });
    }
    if peek(list, Cursor { at: 0 }) != 1 {
        return Err(Refused { place: 0 });
    }
    let (what, next) = ingredient(list, Cursor { at: 0 })?;
    to_end(what, next, list.len())
}

// What was read up to a cursor, where nothing may be left over of so many numbers.
fn to_end(what: Located, next: Cursor, length: usize) -> Result<(Located, Cursor), Refused>
    ensures { result ≡ to_end what next length }
{
    let at = next.at;
    if at < length {
        return Err(Refused { place: at });
    }
    Ok((what, Cursor { at: length }))
}

// Question 3, and then the verdict.
fn check_entries(list: &[u16], what: Located) -> TableCheck
    requires { ReadAs list.now what }
    ensures { result ≡ table_check list.now }
{
    match first_out_of_range_among(list, Cursor { at: 0 }, 1) {
        Ok(()) => check_in_range(list, what),
        Err(RangeFault::OutOfRange { place }) => refused(Refusal::EntryOutOfRange { place }),
        Err(RangeFault::Unread) => refused(Refusal::Unreadable { place: 0 }),
    }
}

// Question 4 of a table with every entry in range. As the first number is 1, what was read is a table.
fn check_in_range(list: &[u16], what: Located) -> TableCheck
    requires read_as { ReadAs list.now what }
    requires list_value { scanned 1 list.now 0 ≡ Ok tt }
    ensures { result ≡ table_check list.now }
{
    let Located::Table {
        rows,
        columns,
        levels_at,
        entries_at,
    } = what
    else {
        return refused(Refusal::Unreadable { place: 0 });
    };
    judged(verdict_there(list, rows, columns, levels_at, entries_at))
}

// What a verdict comes to, with the gap and the pairs of columns that were counted beside it.
fn judged(verdict: TableVerdict) -> TableCheck
    ensures { result ≡ verdict_check verdict }
{
    TableCheck {
        passing: table_passing(1, verdict),
        gap: verdict.gap,
        pairs: verdict.pairs,
    }
}

// The verdict on the table whose level counts and entries stand in the list from these places on, with room made for them.
fn verdict_there(
    list: &[u16],
    rows: usize,
    columns: usize,
    levels: usize,
    entries: usize,
) -> TableVerdict
    requires { TableStands list.now rows columns levels entries }
    ensures { result ≡ table_verdict (table_in list.now (Own rows columns levels entries)) }
{
    let mut cells = [0u8; 65536];
    let mut numbers = [0u8; 128];
    table_verdict(
        list,
        rows,
        columns,
        levels,
        entries,
        &mut cells,
        &mut numbers,
    )
}
