// One step of an order, by its number, on the sheet in hand.
#![tactic(auto)]

ghost use Rattle.std.specs.Prelude.{◌≤◌};
ghost use Rattle.layout.specs.Bytes.{Zeros};
ghost use Rattle.layout.specs.Step.{Stands, Left};
ghost use Rattle.sheet_in_hand.specs.Stepping.{Prepared, in_hand, numbered_in, proceed_in};

use crossing::cross;
use generating::field;
use layout::Size;
use merging::merge;
use sheet_in_hand::allowed;
use sheets::answer::{Answer, Refusal};
use splitting::split;
use step_places::step_at;
use summing::sum;
use taking::take;

// Step number n, of this kind, with its operands at place `at`. Only a later step looks at the size of the sheet in hand: before the first there
// is none.
fn step(
    list: &[u16],
    kind: usize,
    at: usize,
    number: usize,
    size: Size,
    table: &mut [u8],
    levels: &mut [u8],
    scratch: &mut [u8],
) -> Answer
    requires stands { Stands list.now kind at }
    requires prepared { Prepared list.now number size table.old levels.old scratch.old }
    ensures left { Left (numbered_in list.now number (in_hand number size table.old levels.old) kind at) table.old levels.old result table.new levels.new }
    ensures zeros { Zeros scratch.new }
{
    let not_allowed = Answer::Refused(Refusal::StepNotAllowed { step: number });
    if !allowed(number, kind) {
        return not_allowed;
    }
    match kind {
        1 => take(list, at, table, levels),
        2 => field(list, at, table, levels),
        3 => sum(list, at, number, size, table, levels, scratch),
        4 => merge(list, at, number, size, table, levels, scratch),
        5 => split(list, at, number, size, table, levels, scratch),
        6 => cross(list, at, number, size, table, levels, scratch),
        // There is no other kind (question 2).
        _ => not_allowed,
    }
}

// Step number n of the list, on the sheet in hand.
pub fn proceed(
    list: &[u16],
    number: usize,
    size: Size,
    table: &mut [u8],
    levels: &mut [u8],
    scratch: &mut [u8],
) -> Answer
    requires le_number { 1 ≤ number }
    requires prepared { Prepared list.now number size table.old levels.old scratch.old }
    ensures left { Left (proceed_in list.now number (in_hand number size table.old levels.old)) table.old levels.old result table.new levels.new }
    ensures zeros { Zeros scratch.new }
{
    let Some(found) = step_at(list, number) else {
        return Answer::Refused(Refusal::StepNotAllowed { step: number });
    };
    step(
        list,
        found.kind,
        found.operands_at,
        number,
        size,
        table,
        levels,
        scratch,
    )
}
