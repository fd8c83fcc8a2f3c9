// Texts of stored records: what is judged of one record and counted over a text, as definitions (specs/) and with the laws that the code rests on
// (proofs/). The head of records/src/lib.rt shows the lines of such a text.
#![tactic(auto)]

use record_counts::Tally;

// The lengths of the buffers that are lent.
#[derive(Clone, Copy)]
pub struct Lengths {
    pub table: usize,
    pub levels: usize,
    pub scratch: usize,
}

// What an order came to: 01's number of its refusal, 0 where it was filled, and whether all is as the text has it.
#[derive(Clone, Copy)]
pub struct Judged {
    pub number: usize,
    pub same: bool,
}

// How far a text has been compared: what is counted so far, the lengths of the buffers for the next record, and how many bytes of the next item are
// held.
#[derive(Clone, Copy)]
pub struct State {
    pub tally: Tally,
    pub lengths: Lengths,
    pub held: usize,
}
