// The numbers of standard input, which is read as far as they need it: up to its end, or to a word that is refused (document 01, "Printed runs"); and what answers it, as a definition.
#![tactic(auto)]

ghost use Rattle.std.specs.Prelude.{◌≡◌, ◌≤◌, length};
ghost use Rattle.input.specs.Input.{after_read, ScannedInput};

use std::io::Read;
use std::ops::ControlFlow;
use words::{BadWord, Scan};

// The numbers of standard input, which is read in pieces, up to its end or to a word that is refused; a read that fails ends it too. A proved loop
// has to end, and nothing says that the input does, so the reads are counted up to a number that no input reaches.
pub fn scan_input<R: Read>(reader: &mut R, list: &mut [u16; 32768]) -> Result<usize, BadWord>
    requires { length list.old ≡ 32768 }
    ensures { ScannedInput result list.new }
{
    let mut piece = [0u8; 4096];
    let mut state = scanning::start();
    for _ in 0..u64::MAX {
        let n = bytes_read(reader, &mut piece);
        match after_read(state, &piece[..n], list) {
            ControlFlow::Continue(next) => state = next,
            ControlFlow::Break(answer) => return answer,
        }
    }
    scanning::finish(state, list)
}

// How many bytes a read put at the front of a piece: none at the end of the input, and none where the read failed.
fn bytes_read<R: Read>(reader: &mut R, piece: &mut [u8]) -> usize
    ensures { result ≤ length piece.old }
{
    reader.read(piece).unwrap_or(0)
}

// What comes after a read that gave these bytes: none end the text, and a word that is refused ends the reading.
fn after_read(
    state: Scan,
    bytes: &[u8],
    list: &mut [u16; 32768],
) -> ControlFlow<Result<usize, BadWord>, Scan>
    ensures { (result, list.new) ≡ after_read (state, list.old) bytes.now }
{
    if bytes.len() == 0 {
        return ControlFlow::Break(scanning::finish(state, list));
    }
    let reached = scanning::piece(state, bytes, list);
    match reached {
        Scan::Between { count } => ControlFlow::Continue(Scan::Between { count }),
        Scan::Inside { count, value } => ControlFlow::Continue(Scan::Inside { count, value }),
        Scan::Failed { place } => ControlFlow::Break(Err(BadWord { place })),
    }
}
