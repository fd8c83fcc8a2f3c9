// What the program of charges prints of a sheet (document 02, K7). It is put whole into a buffer, so that a program only has to read, to plan and to write.
#![tactic(auto)]

ghost use Rattle.std.specs.Prelude.{◌≡◌, ◌≤◌, length};
ghost use Rattle.buffers.specs.Put.{Put};
ghost use Rattle.given_sheet.specs.Given.{WellFormed, given_sheet};
ghost use Rattle.charge_report.specs.ChargeReport.{quote_by, quote_line, sheet_charged, charge_room};

use buffers::put_byte;
use charges::Quote;
use charging::charge_sheet;
use decimals::put_number;
use lines::put_refusal;

// Charges a sheet by the numbers of a price list and puts the line of it at the front of a buffer: the charge, or the refusal of the price list.
pub fn put_charge(
    numbers: &[u32],
    table: &[u8],
    levels: &[u8],
    runs: usize,
    columns: usize,
    buf: &mut [u8],
) -> usize
    requires well_formed { WellFormed runs columns levels.now table.now }
    requires charge_room_in_bounds { charge_room ≤ length buf.old }
    ensures { Put buf.old 0 (sheet_charged numbers.now (given_sheet runs columns levels.now table.now)) buf.new result }
{
    let quote = quote_by(numbers, table, levels, runs, columns);
    put_quote(buf, quote.answer, quote.charge)
}

// What is answered of a sheet by the numbers of a price list: the first is the price of a run, the last the discount, and between them stand the prices of the columns.
fn quote_by(numbers: &[u32], table: &[u8], levels: &[u8], runs: usize, columns: usize) -> Quote
    requires { WellFormed runs columns levels.now table.now }
    ensures { result ≡ quote_by numbers.now (given_sheet runs columns levels.now table.now) }
{
    if numbers.len() < 2 {
        return Quote {
            answer: 15,
            charge: 0,
        };
    }
    let last = numbers.len() - 1;
    charge_sheet(
        table,
        levels,
        runs,
        columns,
        numbers[0],
        &numbers[1..last],
        numbers[last],
    )
}

// The line of an answer and its charge, at the front of a buffer.
fn put_quote(buf: &mut [u8], answer: usize, charge: u64) -> usize
    requires { charge_room ≤ length buf.old }
    ensures { Put buf.old 0 (quote_line answer charge) buf.new result }
{
    if answer != 0 {
        return put_refusal(buf, 0, [answer, 0, 0, 0, 0, 0, 0]);
    }
    let after_charge = put_number(buf, 0, charge as usize);
    put_byte(buf, after_charge, b'\n')
}
