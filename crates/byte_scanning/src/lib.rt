// One byte more of a text of decimal words: what it does to the state of the scanner, and the number of a word that it ends.
#![tactic(auto)]

ghost use Rattle.std.specs.Prelude.{◌≡◌};
ghost use Rattle.words.specs.Words.{is_gap};
ghost use Rattle.words.specs.Scanner.{grown, begun, stored, resumed, stepped};

use words::{BadWord, Scan};

// Spaces, tabs and line feeds part words.
#[tactic(auto, unfolding(words::specs::Words::is_gap))]
fn is_gap(byte: u8) -> bool
    ensures { result ≡ is_gap byte }
{
    byte == b' ' || byte == b'\t' || byte == b'\n'
}

// One more byte of the word after count numbers, whose digits so far write value.
#[tactic(auto, unfolding(words::specs::Words::is_digit, words::specs::Scanner::grown))]
fn grow(count: usize, value: u16, byte: u8) -> Scan
    ensures { result ≡ grown count value byte }
{
    if byte < 48 {
        return Scan::Failed { place: count };
    }
    if 57 < byte {
        return Scan::Failed { place: count };
    }
    let next = value as u32 * 10 + (byte - 48) as u32;
    if next <= 65535 {
        Scan::Inside {
            count,
            value: next as u16,
        }
    } else {
        Scan::Failed { place: count }
    }
}

// The first byte of the word after count numbers. The word after 32,768 numbers is refused, whatever it is.
#[tactic(auto, unfolding(words::specs::Scanner::begun))]
fn begin(count: usize, byte: u8) -> Scan
    ensures { result ≡ begun count byte }
{
    if 32768 <= count {
        return Scan::Failed { place: count };
    }
    grow(count, 0, byte)
}

// The end of the word after count numbers, which writes value.
#[tactic(auto, unfolding(words::specs::Scanner::stored))]
pub fn store(count: usize, value: u16, list: &mut [u16; 32768]) -> Result<usize, BadWord>
    ensures { (result, list.new) ≡ stored count value list.old }
{
    if count < 32768 {
        list[count] = value;
        Ok(count + 1)
    } else {
        Err(BadWord { place: count })
    }
}

// The state after a word that has ended.
fn resume(word: Result<usize, BadWord>) -> Scan
    ensures { result ≡ resumed word }
{
    match word {
        Ok(count) => Scan::Between { count },
        Err(BadWord { place }) => Scan::Failed { place },
    }
}

// After one byte more. The number of a word that it ends goes into the list.
#[tactic(auto, unfolding(words::specs::Scanner::stepped))]
pub fn step(scan: Scan, byte: u8, list: &mut [u16; 32768]) -> Scan
    ensures { (result, list.new) ≡ stepped (scan, list.old) byte }
{
    let gap = is_gap(byte);
    match scan {
        Scan::Between { count } => {
            if gap {
                Scan::Between { count }
            } else {
                begin(count, byte)
            }
        }
        Scan::Inside { count, value } => {
            if gap {
                resume(store(count, value, list))
            } else {
                grow(count, value, byte)
            }
        }
        Scan::Failed { place } => Scan::Failed { place },
    }
}
