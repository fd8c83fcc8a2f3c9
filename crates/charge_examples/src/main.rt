// Calls of `charge_sheet` as they are stored in `stdin`, and what is answered: both sides of every limit and of every rounding, and many calls made at random. A
// call is the numbers
//
//     runs columns  H L  D E  P h1 l1 .. hP lP  V v1 .. vV  A B C c1 .. cC
//
// for a sheet of so many runs and columns, with 65536 x H + L pence for a run, a discount of 65536 x D + E percent, and P prices of columns, 65536 x h + l pence each;
// its level list is the V bytes v1 .. vV, and its table is A x B bytes, c1 .. cC over and over, or zeros if C is 0. Of each is written a line: the answer and the
// charge. The file `stdout`, with which this is compared, is made by the second implementation.
#![tactic(auto)]

ghost use Rattle.std.specs.Prelude.{◌≡◌, ◌≤◌, ◌<◌, length};

use charges::Quote;
use charging::charge_sheet;
use input::scan_input;
use std::io;
use stored_calls::{least, long_number_at, number_at};
use stored_sheets::{StoredSheet, repeat, sheet_at};

fn main(rt: HostRuntime) -> io::Result<()> {
    let mut list = [0u16; 32768];
    match scan_input(&mut rt.stdin(), &mut list) {
        Ok(count) => answer_calls(&rt, &list, count),
        Err(_) => Ok(()),
    }
}

// Answers the calls that so many numbers at the front of a list hold, one after the other. It is a `while`, since each
// call says where the next one stands.
fn answer_calls(rt: &impl Print, list: &[u16], count: usize) -> io::Result<()>
    requires { length list.now ≡ 32768 }
{
    let mut at = 0;
    while at < least(count, 32768) {
        at = answer_call(rt, list, at);
    }
    Ok(())
}

// Answers the call at a place of a list, and returns the place after it.
fn answer_call(rt: &impl Print, list: &[u16], at: usize) -> usize
    requires { at < 32768 }
    ensures { at < result }
{
    let priced = least(number_at(list, at + 6), 255);
    let sheet = sheet_at(list, at + 7 + 2 * priced);
    match make_call(rt, list, at, priced, sheet) {
        Ok(()) => {}
        Err(_) => {}
    }
    sheet.cells + sheet.given
}

// Makes the call at a place of a list, with so many prices of columns, for such a sheet.
fn make_call(
    rt: &impl Print,
    list: &[u16],
    at: usize,
    priced: usize,
    sheet: StoredSheet,
) -> io::Result<()>
    requires at_bound { (at < 32768) × (priced ≤ 255) }
    requires levels_bound { (sheet.levels ≤ 65536) × (sheet.counts ≤ 255) × (sheet.bytes ≤ 65536) × (sheet.cells ≤ 65536) × (sheet.given ≤ 4096) }
{
    let mut prices = [0u32; 255];
    let mut levels = [0u8; 255];
    let mut table = table_room();
    put_prices(list, at + 7, &mut prices);
    repeat(list, sheet.levels, sheet.counts, &mut levels);
    repeat(list, sheet.cells, sheet.given, &mut table);
    charge_and_write(
        rt,
        list,
        at,
        &table,
        sheet.bytes,
        &levels,
        sheet.counts,
        &prices,
        priced,
    )
}

// Room for any table. The contract tells the length alone, so that no proof writes the zeros out.
fn table_room() -> [u8; 65536]
    ensures { 65536 ≡ length result }
{
    [0; 65536]
}

// Puts prices into an array until it is full, from a place of a list on.
fn put_prices(list: &[u16], start: usize, prices: &mut [u32])
    requires { (start ≤ 65536) × (length prices.old ≤ 65536) }
{
    for (i, price) in prices.iter_mut().enumerate() {
        *price = long_number_at(list, start + 2 * i) as u32;
    }
}

// Charges the sheet of a call, which is in the fronts of two buffers, by a price list whose prices of columns are in the front of a third, and writes what is answered.
fn charge_and_write(
    rt: &impl Print,
    list: &[u16],
    at: usize,
    table: &[u8],
    long: usize,
    levels: &[u8],
    many: usize,
    prices: &[u32],
    priced: usize,
) -> io::Result<()>
    requires { (at < 32768) × (long ≤ length table.now) × (many ≤ length levels.now) × (priced ≤ length prices.now) }
{
    let runs = number_at(list, at);
    let columns = number_at(list, at + 1);
    let run_price = long_number_at(list, at + 2) as u32;
    let discount = long_number_at(list, at + 4) as u32;
    let quote = charge_sheet(
        &table[..long],
        &levels[..many],
        runs,
        columns,
        run_price,
        &prices[..priced],
        discount,
    );
    write_quote(rt, quote)
}

// Writes the line of an answer.
fn write_quote(rt: &impl Print, quote: Quote) -> io::Result<()> {
    println!(rt; "{} {}", quote.answer, quote.charge)
}
