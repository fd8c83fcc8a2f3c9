// A table as it is printed: document 01, "Printed runs". It is put into a buffer line by line.
#![tactic(auto)]

ghost use Rattle.std.specs.Prelude.{◌+◌, ◌*◌, ◌≤◌, length, take};
ghost use Rattle.buffers.specs.Put.{Put};
ghost use Rattle.lines.specs.Lines.{run_lines, printed};
ghost use Rattle.printed_table.specs.Room.{answer_room, TableInBuffers};

use lines::put_header;
use rows::put_row;

// So many runs, one to a line, from a place of the buffer on.
fn put_runs(buf: &mut [u8], at: usize, runs: usize, columns: usize, cells: &[u8]) -> usize
    requires columns_in_bounds { at + runs * (4 * columns + 1) ≤ length buf.old }
    requires columns_in_bounds_2 { runs * columns ≤ length cells.now }
    ensures { Put buf.old at (run_lines runs columns cells.now) buf.new result }
{
    let mut place = at;
    for i in 0..runs {
        let start = i * columns;
        let end = start + columns;
        place = put_row(buf, place, &cells[start..end]);
    }
    place
}

// A table of so many runs and columns: the header, the level counts and the runs.
pub fn put_table(
    buf: &mut [u8],
    runs: usize,
    columns: usize,
    spare: i64,
    levels: &[u8],
    cells: &[u8],
) -> usize
    requires answer_room_in_bounds { answer_room ≤ length buf.old }
    requires table_in_buffers { TableInBuffers runs columns levels.now cells.now }
    ensures { Put buf.old 0 (printed runs spare (take columns levels.now) cells.now) buf.new result }
{
    let after_header = put_header(buf, 0, runs, columns, spare);
    let after_levels = put_row(buf, after_header, &levels[..columns]);
    put_runs(buf, after_levels, runs, columns, cells)
}
