// What the decimal words of a text come to (document 01, "Printed runs"), as definitions and laws, and how far a scanner has read them.
#![tactic(auto)]

// How far a text has been read. A refusal is a state like the others, and no `Err`: a scanner that has come to it
// takes further bytes, and keeps it.
#[derive(Clone, Copy)]
pub enum Scan {
    // Between words, after so many numbers.
    Between { count: usize },
    // In the word after so many numbers. Its bytes so far are digits, and write value.
    Inside { count: usize, value: u16 },
    // The word at this place, from 0, is refused, and with it the text.
    Failed { place: usize },
}

// The first word that is refused, by its place. A whole text comes to this, or to so many numbers at the front of the
// list.
#[derive(Clone, Copy)]
pub struct BadWord {
    pub place: usize,
}
