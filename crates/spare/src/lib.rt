// The spare degrees of a table (02, K1): what they are, how each step changes them, and that those of an even table are never negative.
#![tactic(auto)]

ghost use Rattle.std.specs.Prelude.{◌≡◌, ◌≤◌, length, take};
ghost use Rattle.sheets.specs.declared.answer.Answer.TheVariants.{Filled};
ghost use Rattle.spare.specs.Spare.{spare_of};

use integers::difference;
use sheets::answer::Answer;

// The spare degrees of a table of so many runs and columns, whose level counts stand at the front of a list. What is added and what is taken away
// are summed up apart, without a sign.
pub fn spare_of(runs: usize, columns: usize, levels: &[u8]) -> i64
    requires { (runs ≤ 512) × (columns ≤ 128) × (columns ≤ length levels.now) }
    ensures { result ≡ spare_of runs (take columns levels.now) }
{
    let mut less = 1;
    for count in &levels[..columns] {
        less += *count as usize;
    }
    difference(runs + columns, less)
}

// The answer to such a table: its size, and its spare degrees worked out. TAKE, FIELD, SUM and CROSS answer so.
pub fn sheet_answer(runs: usize, columns: usize, levels: &[u8]) -> Answer
    requires { (runs ≤ 512) × (columns ≤ 128) × (columns ≤ length levels.now) }
    ensures { result ≡ Filled runs columns (spare_of runs (take columns levels.now)) }
{
    Answer::Filled {
        runs,
        columns,
        spare: spare_of(runs, columns, levels),
    }
}
