// The construction of a run table from an order, in six kinds of steps: the planner.
#![tactic(auto)]

mod fill; // fill.rt: questions 2 to 8

ghost use Rattle.promise.specs.Promise.{Promise};

use buffers::clear;
use fill::fill;
use question_1::long_enough;
use sheets::answer::{Answer, Refusal};

// Plans an order: writes the run table that the list orders, run by run, and its level counts, or refuses it and leaves zeros. Demands 1, 2 and 3
// of document 01 are this one promise.
pub fn plan(list: &[u16], table: &mut [u8], levels: &mut [u8], scratch: &mut [u8]) -> Answer
    ensures { Promise list.now table.old levels.old scratch.old result table.new levels.new scratch.new }
{
    clear(table);
    clear(levels);
    clear(scratch);
    if long_enough(table.len(), levels.len(), scratch.len()) {
        fill(list, table, levels, scratch)
    } else {
        Answer::Refused(Refusal::ShortBuffers)
    }
}
