// The numbers of an order, from the decimal words of a text (document 01, "Printed runs"). No function here makes a system call: a program reads,
// a piece at a time.
#![tactic(auto)]

ghost use Rattle.std.specs.Prelude.{◌≡◌};
ghost use Rattle.words.specs.Scanner.{advanced, finished};

use byte_scanning::{step, store};
use words::{BadWord, Scan};

// Before a text's first byte.
pub fn start() -> Scan
    ensures { result ≡ Scan.Between 0 }
{
    Scan::Between { count: 0 }
}

// After a piece of the text more, of any length.
#[tactic(auto, using(words::proofs::Steps::advanced_drop, words::proofs::Steps::advanced_end))]
pub fn piece(scan: Scan, bytes: &[u8], list: &mut [u16; 32768]) -> Scan
    ensures { (result, list.new) ≡ advanced (scan, list.old) bytes.now }
{
    let mut state = scan;
    for byte in bytes {
        state = step(state, *byte, list);
    }
    state
}

// At the end of the text, which ends a word begun.
#[tactic(auto, unfolding(words::specs::Scanner::finished))]
pub fn finish(scan: Scan, list: &mut [u16; 32768]) -> Result<usize, BadWord>
    ensures { (result, list.new) ≡ finished (scan, list.old) }
{
    match scan {
        Scan::Between { count } => Ok(count),
        Scan::Inside { count, value } => store(count, value, list),
        Scan::Failed { place } => Err(BadWord { place }),
    }
}
