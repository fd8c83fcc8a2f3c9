// Calls of `print_page` as they are stored in `stdin`, and what is answered: 02's traps, both sides of every limit, and many calls made at random. A call is
// the numbers
//
//     runs columns number room  L l1 .. lL  A B C c1 .. cC
//
// for a sheet of so many runs and columns, the number of a page, and a buffer of `room` bytes, which holds other bytes before the call; its level list is the L
// bytes l1 .. lL, and its table is A x B bytes, c1 .. cC over and over. Of each are written the answer and how many bytes after the page are not zero, and
// the page if there is one. The file `stdout`, with which this is compared, is made by the second implementation.
#![tactic(auto)]

ghost use Rattle.std.specs.Prelude.{◌≡◌, ◌≤◌, ◌<◌, length};

use input::scan_input;
use paging::print_page;
use std::io;
use stored_calls::{least, number_at};
use stored_sheets::{StoredSheet, repeat, sheet_at};

fn main(rt: HostRuntime) -> io::Result<()> {
    let mut list = [0u16; 32768];
    match scan_input(&mut rt.stdin(), &mut list) {
        Ok(count) => answer_calls(&rt, &list, count),
        Err(_) => Ok(()),
    }
}

// Answers the calls that so many numbers at the front of a list hold, one after the other. It is a `while`, since each
// call says where the next one stands.
fn answer_calls(rt: &impl Print, list: &[u16], count: usize) -> io::Result<()>
    requires { length list.now ≡ 32768 }
{
    let mut at = 0;
    while at < least(count, 32768) {
        at = answer_call(rt, list, at);
    }
    Ok(())
}

// Answers the call at a place of a list, and returns the place after it.
fn answer_call(rt: &impl Print, list: &[u16], at: usize) -> usize
    requires { at < 32768 }
    ensures { at < result }
{
    let room = least(number_at(list, at + 3), 8192);
    let sheet = sheet_at(list, at + 4);
    match make_call(rt, list, at, sheet, room) {
        Ok(()) => {}
        Err(_) => {}
    }
    sheet.cells + sheet.given
}

// Makes the call at a place of a list, for such a sheet, with so much room for the page.
fn make_call(
    rt: &impl Print,
    list: &[u16],
    at: usize,
    sheet: StoredSheet,
    room: usize,
) -> io::Result<()>
    requires at_bound { (at < 32768) × (room ≤ 8192) }
    requires levels_bound { (sheet.levels ≤ 65536) × (sheet.counts ≤ 255) × (sheet.bytes ≤ 65536) × (sheet.cells ≤ 65536) × (sheet.given ≤ 4096) }
{
    let mut levels = [0u8; 255];
    let mut table = table_room();
    let mut page = other_bytes();
    repeat(list, sheet.levels, sheet.counts, &mut levels);
    repeat(list, sheet.cells, sheet.given, &mut table);
    print_and_write(
        rt,
        list,
        at,
        &table,
        sheet.bytes,
        &levels,
        sheet.counts,
        &mut page,
        room,
    )
}

// Room for any table. The contract tells the length alone, so that no proof writes the zeros out.
fn table_room() -> [u8; 65536]
    ensures { 65536 ≡ length result }
{
    [0; 65536]
}

// Bytes that are not zero. The contract tells the length alone, so that no proof writes them out.
fn other_bytes() -> [u8; 8192]
    ensures { 8192 ≡ length result }
{
    [255; 8192]
}

// Prints the page that a call asks for, of a sheet in the fronts of two buffers, to the front of a third, and writes what is answered.
fn print_and_write(
    rt: &impl Print,
    list: &[u16],
    at: usize,
    table: &[u8],
    long: usize,
    levels: &[u8],
    many: usize,
    page: &mut [u8],
    room: usize,
) -> io::Result<()>
    requires { (at < 32768) × (long ≤ length table.now) × (many ≤ length levels.now) × (room ≤ length page.old) }
{
    let runs = number_at(list, at);
    let columns = number_at(list, at + 1);
    let number = number_at(list, at + 2);
    let answer = print_page(
        &table[..long],
        &levels[..many],
        runs,
        columns,
        number,
        &mut page[..room],
    );
    write_answer(rt, answer, &page[..room])
}

// Writes an answer, how many bytes are not zero that should be, and the page that was printed.
fn write_answer(rt: &impl Print, answer: usize, page: &[u8]) -> io::Result<()> {
    print!(rt; "{answer} ")?;
    if answer == 0 {
        write_others(rt, page, 4800)?;
        write_page(rt, page)
    } else {
        write_others(rt, page, 0)
    }
}

// Writes how many bytes from a place on are not zero, and ends the line.
fn write_others(rt: &impl Print, bytes: &[u8], start: usize) -> io::Result<()> {
    println!(rt; "{}", count_others(bytes, start))
}

// Writes a page.
fn write_page(rt: &impl Print, bytes: &[u8]) -> io::Result<()> {
    if 4800 <= bytes.len() {
        rt.write_all(&bytes[..4800])?;
    }
    Ok(())
}

// How many bytes from a place on are not zero.
fn count_others(bytes: &[u8], start: usize) -> usize {
    let from = start.min(bytes.len());
    bytes[from..].iter().filter(|byte| **byte != 0).count()
}
