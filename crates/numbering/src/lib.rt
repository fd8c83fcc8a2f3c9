// An answer in numbers: 01's number of a refusal, 0 for a filled order, and six details; and beside them the spare degrees (02, K1).
#![tactic(auto)]

ghost use Rattle.std.specs.Prelude.{◌≡◌};
ghost use Rattle.sheets.specs.Refusals.{numbered, answer_numbers, answer_spare};

use sheets::answer::{Answer, Refusal};

// A refusal in numbers: that of document 01 or of 02, K6, and its six details. Here i is an ingredient, c and d are columns or factors, x and y
// levels, v a value.
pub fn numbers_of(why: Refusal) -> [usize; 7]
    ensures { result ≡ numbered why }
{
    match why {
        Refusal::ShortBuffers => [1, 0, 0, 0, 0, 0, 0],
        Refusal::Unreadable { place } => [2, place, 0, 0, 0, 0, 0],
        Refusal::EntryOutOfRange { place } => [3, place, 0, 0, 0, 0, 0],
        Refusal::UnevenLevel {
            ingredient: i,
            column: c,
            level: x,
            times,
        } => [4, i, c, x, times, 0, 0],
        Refusal::UnevenPair {
            ingredient: i,
            first: c,
            second: d,
            first_level: x,
            second_level: y,
            times,
        } => [5, i, c, d, x, y, times],
        Refusal::UnevenDifference {
            ingredient: i,
            first: c,
            second: d,
            difference: x,
            times,
        } => [6, i, c, d, x, times, 0],
        Refusal::Dependent {
            ingredient: i,
            first: c,
            second: d,
            coefficients,
        } => [7, i, c, d, coefficients, 0, 0],
        Refusal::StepNotAllowed { step } => [8, step, 0, 0, 0, 0, 0],
        Refusal::PartsDoNotFit { step } => [9, step, 0, 0, 0, 0, 0],
        Refusal::NotTheSum { step, run, member } => [10, step, run, member, 0, 0, 0],
        Refusal::TooLarge {
            step,
            runs,
            columns,
        } => [11, step, runs, columns, 0, 0, 0],
        Refusal::UnevenValue {
            step,
            ingredient: i,
            column: c,
            value: v,
        } => [14, step, i, c, v, 0, 0],
    }
}

// The size of the table that was written, or why there is none.
pub fn answer_numbers(answer: Answer) -> [usize; 7]
    ensures { result ≡ answer_numbers answer }
{
    match answer {
        Answer::Filled { runs, columns, .. } => [0, runs, columns, 0, 0, 0, 0],
        Answer::Refused(why) => numbers_of(why),
    }
}

// The spare degrees of the table that was written, and 0 where there is none.
pub fn answer_spare(answer: Answer) -> i64
    ensures { result ≡ answer_spare answer }
{
    match answer {
        Answer::Filled { spare, .. } => spare,
        Answer::Refused(_) => 0,
    }
}
