// Questions 2 to 8, on clear buffers that are long enough.
ghost use Rattle.sheets.specs.Outcome.{outcome};
ghost use Rattle.layout.specs.Bytes.{Zeros, LongEnough};
ghost use Rattle.layout.specs.Step.{Readable};
ghost use Rattle.construction.specs.Filling.{passed_in};
ghost use Rattle.promise.specs.Promise.{Settled};

use carrying::carry_or_clear;
use entry_range::first_out_of_range;
use order::RangeFault;
use passing::first_failing;
use reading::read;
use sheets::answer::{Answer, Refusal};

// Question 4, and then the steps.
fn check_and_carry_out(
    list: &[u16],
    table: &mut [u8],
    levels: &mut [u8],
    scratch: &mut [u8],
) -> Answer
    requires readable { Readable list.now }
    requires long_enough { LongEnough table.old levels.old scratch.old }
    requires zeros { Zeros table.old × Zeros levels.old × Zeros scratch.old }
    ensures settled { Settled (passed_in list.now) result table.new levels.new }
    ensures zeros_2 { Zeros scratch.new }
{
    match first_failing(list, scratch, levels) {
        Ok(()) => carry_or_clear(list, table, levels, scratch),
        Err(why) => Answer::Refused(why),
    }
}

// Questions 2 and 3, and then the others.
pub(crate) fn fill(list: &[u16], table: &mut [u8], levels: &mut [u8], scratch: &mut [u8]) -> Answer
    requires long_enough { LongEnough table.old levels.old scratch.old }
    requires zeros { Zeros table.old × Zeros levels.old × Zeros scratch.old }
    ensures settled { Settled (outcome list.now) result table.new levels.new }
    ensures zeros_2 { Zeros scratch.new }
{
    match read(list) {
        Ok(()) => match first_out_of_range(list) {
            Ok(()) => check_and_carry_out(list, table, levels, scratch),
            Err(RangeFault::OutOfRange { place }) => {
                Answer::Refused(Refusal::EntryOutOfRange { place })
            }
            // A list that reads is asked question 3.
            Err(RangeFault::Unread) => Answer::Refused(Refusal::Unreadable { place: 0 }),
        },
        Err(refusal) => Answer::Refused(Refusal::Unreadable {
            place: refusal.place,
        }),
    }
}
