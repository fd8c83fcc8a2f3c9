// Compares the planner with stored answers: every order of a text is planned in buffers that are full of other bytes, and what is printed of it is
// held to the text, byte for byte. The text's lines:
//
//     # a remark, up to the end of its line
//     @ 1 0 0 128 1 0
//     0 2 1 101 4 2 1 2 3 =
//     4 1 0
//     4
//     0
//     1
//     2
//     3
//     ;
//
// An order goes up to "=" and the end of that line; then comes what the program `planner` prints, up to ";". A line with "@" gives the lengths of run
// table, level list and scratch from there on, each as two numbers: 65,536 times the first, plus the second. A record without "=" differs, and so does
// one of 262,144 bytes or more, for which there is no room.
#![tactic(auto)]

ghost use Rattle.std.specs.Prelude.{◌≡◌, [], ◌≤◌, length};
ghost use Rattle.record_texts.specs.Text.{Compared, ends_item, after_record, after_item, after_byte, after_text};
ghost use Rattle.record_texts.specs.State.{progress, progress_of};

use judging::{judge, lengths_of};
use record_counts::{Tally, count, record_counted};
use record_texts::{Lengths, State};
use std::io::Read;
use summary::{print_counts, print_difference};

// Room for an item. The contract tells the length alone, so that no proof writes the zeros out.
fn item_room() -> [u8; 262144]
    ensures { 262144 ≡ length result }
{
    [0; 262144]
}

// Compares the orders of standard input, and prints how many came to each answer and which of them differ. A proved loop has to end, and nothing
// says that the input does, so the pieces in which it is read are counted up to a number that no input reaches.
pub fn compare_all<R: Read>(rt: &impl Print, reader: &mut R) -> Tally
    ensures compared { Compared result }
    ensures differing_le_records { result.differing ≤ result.records }
{
    let mut piece = [0u8; 4096];
    let mut item = item_room();
    let mut counts = [0usize; 15];
    let mut state = State {
        tally: Tally {
            records: 0,
            differing: 0,
        },
        lengths: Lengths {
            table: 65536,
            levels: 128,
            scratch: 65536,
        },
        held: 0,
    };
    for _ in 0..u64::MAX {
        let n = reader.read(&mut piece).unwrap_or(0);
        if n == 0 {
            break;
        }
        state = compare_piece(rt, &piece[..n], state, &mut item, &mut counts);
    }
    let tally = state.tally;
    match print_counts(rt, &counts, tally) {
        Ok(()) => {}
        Err(_) => {}
    }
    tally
}

// After a piece of the text more.
fn compare_piece(
    rt: &impl Print,
    piece: &[u8],
    before: State,
    item: &mut [u8],
    counts: &mut [usize],
) -> State
    requires { before.held ≤ length item.old }
    ensures held_in_bounds { result.held ≤ length item.old }
    ensures counts_after { progress_of result item.new counts.new ≡ after_text (length item.old) (progress_of before item.old counts.old) piece.now }
{
    let mut state = before;
    for byte in piece {
        state = compare_byte(rt, *byte, state, item, counts);
    }
    state
}

// After one byte more. Of an item that is too long for its room the last bytes are left out; a record then differs.
fn compare_byte(
    rt: &impl Print,
    byte: u8,
    before: State,
    item: &mut [u8],
    counts: &mut [usize],
) -> State
    requires { before.held ≤ length item.old }
    ensures held_in_bounds { result.held ≤ length item.old }
    ensures counts_after { progress_of result item.new counts.new ≡ after_byte (length item.old) (progress_of before item.old counts.old) byte }
{
    let held = before.held;
    let room = item.len();
    if ends_item(&item[..held], byte) {
        return compare_item(rt, &item[..held], room, before, counts);
    }
    if held == room {
        return before;
    }
    item[held] = byte;
    let tally = before.tally;
    let lengths = before.lengths;
    State {
        tally,
        lengths,
        held: held + 1,
    }
}

// Whether a byte ends the item with these bytes so far.
fn ends_item(item: &[u8], byte: u8) -> bool
    ensures { result ≡ ends_item item.now byte }
{
    if item.len() == 0 {
        return byte == b'\n';
    }
    let first = item[0];
    if first == b'#' || first == b'@' {
        return byte == b'\n';
    }
    byte == b';'
}

// After an item with these bytes; none is held then.
fn compare_item(
    rt: &impl Print,
    item: &[u8],
    room: usize,
    before: State,
    counts: &mut [usize],
) -> State
    ensures held_value { result.held ≡ 0 }
    ensures counts_after { progress result.tally result.lengths [] counts.new ≡ after_item room (progress before.tally before.lengths item.now counts.old) }
{
    let mut tally = before.tally;
    let mut lengths = before.lengths;
    if item.len() > 0 {
        let first = item[0];
        if first == b'@' {
            lengths = lengths_of(&item[1..]);
        } else if first != b'#' {
            tally = compare_record(rt, item, room, tally, lengths, counts);
        }
    }
    State {
        tally,
        lengths,
        held: 0,
    }
}

// After a record with these bytes. One that fills its room may lack bytes, and counts as differing.
#[tactic(auto, using(record_texts::proofs::Texts::record_counted_lem))]
fn compare_record(
    rt: &impl Print,
    bytes: &[u8],
    room: usize,
    before: Tally,
    lengths: Lengths,
    counts: &mut [usize],
) -> Tally
    ensures { progress result lengths [] counts.new ≡ after_record room (progress before lengths bytes.now counts.old) }
{
    let found = judge(bytes, lengths);
    count(counts, found.number);
    let holds = bytes.len() < room && found.same;
    let tally = record_counted(holds, before);
    if !holds {
        match print_difference(rt, tally.records) {
            Ok(()) => {}
            Err(_) => {}
        }
    }
    tally
}
