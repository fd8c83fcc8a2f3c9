// The steps of an order, one after the other: a step's questions come before the next step's.
#![tactic(auto)]

ghost use Rattle.std.specs.Prelude.{length};
ghost use Rattle.layout.specs.Bytes.{Zeros, LongEnough};
ghost use Rattle.layout.specs.Step.{Left};
ghost use Rattle.sheet_in_hand.specs.Carrying.{Passing, all_in, last_in, hand_runs, hand_levels};
ghost use Rattle.promise.specs.Promise.{Settled};

use buffers::clear;
use layout::Size;
use sheets::answer::Answer;
use step_places::step_count;
use stepping::proceed;

// All steps, in turn. There is no sheet in hand at the start; a step that refuses the order leaves the one before it.
fn carry_out(list: &[u16], table: &mut [u8], levels: &mut [u8], scratch: &mut [u8]) -> Answer
    requires passing { Passing list.now }
    requires long_enough { LongEnough table.old levels.old scratch.old }
    requires zeros { Zeros table.old × Zeros levels.old × Zeros scratch.old }
    ensures left { Left (all_in list.now) (hand_runs (length table.old) (last_in list.now)) (hand_levels (length levels.old) (last_in list.now)) result table.new levels.new }
    ensures zeros_2 { Zeros scratch.new }
{
    let last = step_count(list);
    let mut size = Size {
        runs: 0,
        columns: 0,
        spare: 0,
    };
    for number in 1..=last {
        match proceed(list, number, size, table, levels, scratch) {
            Answer::Filled {
                runs,
                columns,
                spare,
            } => {
                size = Size {
                    runs,
                    columns,
                    spare,
                };
            }
            Answer::Refused(why) => return Answer::Refused(why),
        }
    }
    Answer::Filled {
        runs: size.runs,
        columns: size.columns,
        spare: size.spare,
    }
}

// All steps; where one of them refuses the order, the sheet that it left is cleared.
pub fn carry_or_clear(
    list: &[u16],
    table: &mut [u8],
    levels: &mut [u8],
    scratch: &mut [u8],
) -> Answer
    requires passing { Passing list.now }
    requires long_enough { LongEnough table.old levels.old scratch.old }
    requires zeros { Zeros table.old × Zeros levels.old × Zeros scratch.old }
    ensures settled { Settled (all_in list.now) result table.new levels.new }
    ensures zeros_2 { Zeros scratch.new }
{
    match carry_out(list, table, levels, scratch) {
        Answer::Filled {
            runs,
            columns,
            spare,
        } => Answer::Filled {
            runs,
            columns,
            spare,
        },
        Answer::Refused(why) => {
            clear(table);
            clear(levels);
            Answer::Refused(why)
        }
    }
}
