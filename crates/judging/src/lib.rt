// One order and its stored answer: an order is planned in buffers that are full of other bytes, and what is printed of it is held to what is stored.
#![tactic(auto)]

ghost use Rattle.std.specs.Prelude.{◌≡◌, ◌∷◌, length};
ghost use Rattle.words.specs.Words.{Reading};
ghost use Rattle.sheets.specs.Steps.{Outcome};
ghost use Rattle.promise.specs.Promise.{planned};
ghost use Rattle.report.specs.Report.{answer_room, Printable};
ghost use Rattle.byte_texts.specs.Bytes.{same_bytes};
ghost use Rattle.record_texts.specs.Record.{lengths_in, lengths_given, came_to, answer_number, judged_as, judged, rest_zero};

use byte_texts::{find, same, zero_from};
use numbering::numbers_of;
use printing::plan_and_put;
use record_texts::{Judged, Lengths};
use report::put_refused;
use sheets::answer::{Answer, Refusal};
use stored_calls::{least, long_number_at};
use whole_text::scan;
use words::BadWord;

// The lengths that some numbers give.
fn lengths_in(list: &[u16]) -> Lengths
    ensures { result ≡ lengths_in list.now }
{
    Lengths {
        table: long_number_at(list, 0),
        levels: long_number_at(list, 2),
        scratch: long_number_at(list, 4),
    }
}

// The lengths that a line gives.
#[tactic(auto, using(whole_text::proofs::Whole::scanned, record_texts::proofs::Judging::lengths_read_lem))]
pub fn lengths_of(line: &[u8]) -> Lengths
    ensures { result ≡ lengths_given line.now }
{
    let mut list = [0u16; 32768];
    match scan(line, &mut list) {
        Ok(count) => lengths_in(&list[..count]),
        Err(_) => lengths_in(&list[..0]),
    }
}

// A record: an order up to "=", the end of that line, and what is printed of it.
#[tactic(auto, using(byte_texts::proofs::Comparing::first_most))]
pub fn judge(bytes: &[u8], lengths: Lengths) -> Judged
    ensures { result ≡ judged bytes.now lengths }
{
    let end = find(bytes, b'=');
    let mut list = [0u16; 32768];
    match scan(&bytes[..end], &mut list) {
        Ok(count) => judge_list(&list[..count], &bytes[end..], lengths),
        Err(BadWord { place }) => judge_unread(place, &bytes[end..]),
    }
}

// An order with a word that is refused.
fn judge_unread(place: usize, stored: &[u8]) -> Judged
    ensures { result ≡ judged_as (Outcome.refused (Refusal.Unreadable place)) stored.now }
{
    let mut line = [0u8; 1024];
    let end = put_refused(&mut line, Refusal::Unreadable { place });
    Judged {
        number: 2,
        same: is_stored(stored, &line[..end]),
    }
}

// Whether "=", the end of the line and what is printed are what is stored.
fn is_stored(stored: &[u8], printed: &[u8]) -> bool
    ensures { result ≡ same_bytes stored.now (61 ∷ 10 ∷ printed.now) }
{
    if stored.len() < 2 {
        return false;
    }
    if stored[0] != b'=' {
        return false;
    }
    if stored[1] != b'\n' {
        return false;
    }
    same(&stored[2..], printed)
}

// An order, in buffers of the lengths that are asked for, which are full of other bytes before.
fn judge_list(list: &[u16], stored: &[u8], lengths: Lengths) -> Judged
    ensures { result ≡ judged_as (came_to (Reading.numbers list.now) lengths) stored.now }
{
    let mut table = [170u8; 66048];
    let mut levels = [187u8; 256];
    let mut scratch = [204u8; 66048];
    let a = least(lengths.table, 66048);
    let b = least(lengths.levels, 256);
    let c = least(lengths.scratch, 66048);
    judge_in(
        list,
        stored,
        &mut table[..a],
        &mut levels[..b],
        &mut scratch[..c],
    )
}

// Room for what is printed of an order. The contract tells the length alone, so that no proof writes the zeros out.
fn printed_room() -> [u8; 263682]
    ensures { answer_room ≡ length result }
{
    [0; 263682]
}

// The same in these buffers. That the scratch and all bytes after the table and its level counts are zero is promised by `plan`, and so decides
// nothing here; it is looked at all the same, to have the compiled code tried.
fn judge_in(
    list: &[u16],
    stored: &[u8],
    table: &mut [u8],
    levels: &mut [u8],
    scratch: &mut [u8],
) -> Judged
    ensures { result ≡ judged_as (planned list.now (length table.old) (length levels.old) (length scratch.old)) stored.now }
{
    let mut printed = printed_room();
    let done = plan_and_put(list, table, levels, scratch, &mut printed);
    let answer = done.answer;
    let end = done.end;
    let clear = zero_from(scratch, 0) & rest_is_zero(answer, levels, table);
    Judged {
        number: number_of(answer),
        same: clear & is_stored(stored, &printed[..end]),
    }
}

// 01's number of a refusal, and 0 for an order that was filled.
fn number_of(answer: Answer) -> usize
    ensures { result ≡ answer_number answer }
{
    match answer {
        Answer::Filled { .. } => 0,
        Answer::Refused(why) => {
            let numbers = numbers_of(why);
            numbers[0]
        }
    }
}

// Whether all bytes after those of an answer are zero.
fn rest_is_zero(answer: Answer, levels: &[u8], table: &[u8]) -> bool
    requires { Printable answer levels.now table.now }
    ensures { result ≡ rest_zero answer levels.now table.now }
{
    match answer {
        Answer::Filled { runs, columns, .. } => {
            zero_from(levels, columns) & zero_from(table, runs * columns)
        }
        Answer::Refused(_) => zero_from(levels, 0) & zero_from(table, 0),
    }
}
