// Numbers of the list in rows, each number with a limit: the first that is not below its own. Question 3 asks it of each ingredient.
#![tactic(auto)]

ghost use Rattle.std.specs.Prelude.{◌≡◌, ◌+◌, ◌*◌, ◌≤◌, ◌<◌, length, replicate};
ghost use Rattle.order.specs.Range.{is_in_range};
ghost use Rattle.row_limits.specs.High.{high_in_row, high_in_rows};

use order::RangeFault;

// Whether every number of the row that starts at start is below its limit. Each is compared, whatever the ones before it were, so that the
// compiler can have several compared at once.
fn row_in_range(list: &[u16], start: usize, limits: &[u16]) -> bool
    requires { start + length limits.now ≤ length list.now }
    ensures { result ≡ is_in_range (high_in_row list.now start limits.now) }
{
    let mut all = true;
    for column in 0..limits.len() {
        all = all & (list[start + column] < limits[column]);
    }
    all
}

// The first number of the row that is not below its limit.
fn first_high_in_row(list: &[u16], start: usize, limits: &[u16]) -> Result<(), RangeFault>
    requires { start + length limits.now ≤ length list.now }
    ensures { result ≡ high_in_row list.now start limits.now }
{
    for column in 0..limits.len() {
        if limits[column] <= list[start + column] {
            let place = start + column;
            return Err(RangeFault::OutOfRange { place });
        }
    }
    Ok(())
}

// The first number of so many rows from start on that is not below its limit. Every row has the same limits. Only the row that has such a
// number is gone through number by number.
pub fn first_high(list: &[u16], start: usize, rows: usize, limits: &[u16]) -> Result<(), RangeFault>
    requires { start + rows * length limits.now ≤ length list.now }
    ensures { result ≡ high_in_rows list.now start rows limits.now }
{
    let mut at = start;
    for _ in 0..rows {
        if !row_in_range(list, at, limits) {
            return first_high_in_row(list, at, limits);
        }
        at += limits.len();
    }
    Ok(())
}

// The same where every number has the same limit. A row is at most as long as that of a generator of 128 factors of width 6.
pub fn first_not_below(
    list: &[u16],
    start: usize,
    rows: usize,
    columns: usize,
    limit: usize,
) -> Result<(), RangeFault>
    requires { ((columns ≤ 768) × (limit < 65536)) × (start + rows * columns ≤ length list.now) }
    ensures { result ≡ high_in_rows list.now start rows (replicate columns limit) }
{
    let limits = [limit as u16; 768];
    first_high(list, start, rows, &limits[..columns])
}
