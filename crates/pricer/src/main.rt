// Reads an order from standard input and writes what its sheet costs, in pence, by the price list that the arguments are: the pence per run, the pence for a changed
// level in each column, and the discount in percent (document 02, K7). What is written for the text that is read is a definition, `reading_charged` in
// crates/charge_report/specs/ChargeReport.antt.
#![tactic(auto)]

ghost use Rattle.std.specs.Prelude.{◌≡◌, List, ℕ, ◌≤◌, length, take, IfSome};
ghost use Rattle.buffers.specs.Put.{Put};
ghost use Rattle.sheets.specs.Outcome.{outcome};
ghost use Rattle.words.specs.Scanner.{scanned_reading, Ended};
ghost use Rattle.input.specs.Answering.{AnsweringBy};
ghost use Rattle.price_arguments.specs.PriceArguments.{price_in, price_list};
ghost use Rattle.charge_report.specs.ChargeReport.{outcome_charged, reading_charged, charge_room};

use charge_printing::plan_and_put_charge;
use input::scan_input;
use price_arguments::price_in;
use report::put_refused;
use sheets::answer::Refusal;
use std::env::{Env, FillError};
use std::io;
use std::io::Read;
use words::BadWord;

fn main(rt: HostRuntime) -> io::Result<()> {
    let mut numbers = [0u32; 130];
    let count = prices_given(&rt, &mut numbers);
    let mut out = [0u8; 155];
    let end = answer_input(&mut rt.stdin(), &numbers[..count], &mut out);
    write_charge(&rt, &numbers[..count], &out[..end])
}

// Writes what an order's sheet costs, and nothing else.
fn write_charge(rt: &impl Print, numbers: &[u32], bytes: &[u8]) -> io::Result<()>
    requires { AnsweringBy (reading_charged numbers.now) bytes.now }
{
    rt.write_all(bytes)
}

// Puts the numbers of the arguments at the front of an array, or none where they are no price list. Nothing can say which bytes the arguments have, so the contract says
// that there are such arguments.
fn prices_given(rt: &impl Env, numbers: &mut [u32]) -> usize
    requires { length numbers.old ≡ 130 }
    ensures { (result ≤ 130) × ((arguments : List (List ℕ)) × (take result numbers.new ≡ price_list arguments)) }
{
    let mut room = argument_room();
    for i in 0..130 {
        match price_at(rt, i + 1, &mut room) {
            Some(Some(pence)) => numbers[i] = pence,
            Some(None) => return 0,
            None => return i,
        }
    }
    match price_at(rt, 131, &mut room) {
        Some(_) => 0,
        None => 130,
    }
}

// Room for any argument: the system hands over none that is longer. The contract tells the length alone, so that no proof writes the zeros out.
fn argument_room() -> [u8; 131072]
    ensures { 131072 ≡ length result }
{
    [0; 131072]
}

// What an argument writes, a price or none, or `None` where there is no such argument.
fn price_at(rt: &impl Env, i: usize, room: &mut [u8]) -> Option<Option<u32>>
    ensures { IfSome result (λ price. (argument : List ℕ) × (price ≡ price_in argument)) }
{
    match rt.arg(i, room) {
        Ok(length) => Some(price_in(&room[..length])),
        Err(FillError::TooLong) => Some(price_in(&room[..0])),
        Err(FillError::NotPresent) => None,
    }
}

// Puts what is printed for standard input, whole, at the front of a buffer.
fn answer_input<R: Read>(reader: &mut R, numbers: &[u32], out: &mut [u8]) -> usize
    requires { charge_room ≤ length out.old }
    ensures { (result ≤ length out.new) × AnsweringBy (reading_charged numbers.now) (take result out.new) }
{
    let mut list = [0u16; 32768];
    let scanned = scan_input(reader, &mut list);
    put_scanned(scanned, &list, numbers, out)
}

// Puts what is printed for a text that comes to this: the charge for its numbers, or the refusal of a word.
fn put_scanned(
    scanned: Result<usize, BadWord>,
    list: &[u16],
    numbers: &[u32],
    out: &mut [u8],
) -> usize
    requires ended { Ended 32768 scanned list.now }
    requires charge_room_in_bounds { charge_room ≤ length out.old }
    ensures { Put out.old 0 (reading_charged numbers.now (scanned_reading (scanned, list.now))) out.new result }
{
    match scanned {
        Ok(count) => put_ordered(&list[..count], numbers, out),
        Err(BadWord { place }) => put_refused(out, Refusal::Unreadable { place }),
    }
}

// Plans a list of numbers and puts what the sheet costs, or the refusal.
fn put_ordered(list: &[u16], numbers: &[u32], out: &mut [u8]) -> usize
    requires { charge_room ≤ length out.old }
    ensures { Put out.old 0 (outcome_charged numbers.now (outcome list.now)) out.new result }
{
    let mut table = [0u8; 65536];
    let mut levels = [0u8; 128];
    let mut scratch = [0u8; 65536];
    plan_and_put_charge(list, &mut table, &mut levels, &mut scratch, numbers, out)
}
