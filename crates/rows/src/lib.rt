// The line of some byte-sized numbers (document 01, "Printed runs"). Each function puts bytes into a buffer from a place on, leaves the rest of it,
// and returns the place after them.
#![tactic(auto)]

ghost use Rattle.std.specs.Prelude.{◌+◌, ◌*◌, ◌<◌, [], ◌∷◌, ◌++◌, length};
ghost use Rattle.buffers.specs.Put.{Put};
ghost use Rattle.decimals.specs.Decimals.{decimal_digits};
ghost use Rattle.rows.specs.Rows.{spaced, line};

use buffers::put_byte;
use decimals::put_number;

// A space and a number.
pub fn put_spaced(buf: &mut [u8], at: usize, value: usize) -> usize
    requires { at + length (decimal_digits value) < length buf.old }
    ensures { Put buf.old at (32 ∷ decimal_digits value) buf.new result }
{
    let place = put_byte(buf, at, b' ');
    put_number(buf, place, value)
}

// The end of a line: each of some byte-sized numbers with a space before it, and the line feed.
fn end_with_cells(buf: &mut [u8], at: usize, cells: &[u8]) -> usize
    requires { at + 4 * length cells.now < length buf.old }
    ensures { Put buf.old at (spaced cells.now ++ (10 ∷ [])) buf.new result }
{
    let mut place = at;
    for cell in cells {
        place = put_spaced(buf, place, *cell as usize);
    }
    put_byte(buf, place, b'\n')
}

// The line of some byte-sized numbers, as the level counts or a run.
pub fn put_row(buf: &mut [u8], at: usize, cells: &[u8]) -> usize
    requires { at + 4 * length cells.now < length buf.old }
    ensures { Put buf.old at (line cells.now) buf.new result }
{
    if cells.len() == 0 {
        return put_byte(buf, at, b'\n');
    }
    let after_first = put_number(buf, at, cells[0] as usize);
    end_with_cells(buf, after_first, &cells[1..])
}
