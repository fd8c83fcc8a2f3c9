// The lines that are printed (document 01, "Printed runs"). Each function puts bytes into a buffer from a place on, leaves the rest of it, and
// returns the place after them.
#![tactic(auto)]

ghost use Rattle.std.specs.Prelude.{◌+◌, ◌*◌, ◌≤◌, ◌<◌, [], ◌∷◌, ◌++◌, length};
ghost use Rattle.buffers.specs.Put.{Put};
ghost use Rattle.rows.specs.Rows.{spaced};
ghost use Rattle.lines.specs.Lines.{refused_line, header};

use buffers::{put_byte, put_bytes};
use decimals::{put_number, put_signed};
use rows::put_spaced;

// The header of a filled order, "N m spare".
pub fn put_header(buf: &mut [u8], at: usize, runs: usize, columns: usize, spare: i64) -> usize
    requires { at + 63 ≤ length buf.old }
    ensures { Put buf.old at (header runs columns spare) buf.new result }
{
    let after_runs = put_number(buf, at, runs);
    let after_columns = put_spaced(buf, after_runs, columns);
    let after_space = put_byte(buf, after_columns, b' ');
    let after_spare = put_signed(buf, after_space, spare);
    put_byte(buf, after_spare, b'\n')
}

// The end of a line: each of some numbers with a space before it, and the line feed.
fn end_with_numbers(buf: &mut [u8], at: usize, numbers: &[usize]) -> usize
    requires { at + 21 * length numbers.now < length buf.old }
    ensures { Put buf.old at (spaced numbers.now ++ (10 ∷ [])) buf.new result }
{
    let mut place = at;
    for number in numbers {
        place = put_spaced(buf, place, *number);
    }
    put_byte(buf, place, b'\n')
}

// The line of a refusal: its number and six details.
pub fn put_refusal(buf: &mut [u8], at: usize, numbers: [usize; 7]) -> usize
    requires { at + 155 ≤ length buf.old }
    ensures { Put buf.old at (refused_line numbers) buf.new result }
{
    let after_word = put_bytes(buf, at, b"refused");
    end_with_numbers(buf, after_word, &numbers)
}
