// The check of a difference matrix: every difference of every two columns, counted over the rows.
#![tactic(auto)]

mod differences; // differences.rt: the differences of two columns, counted over the rows

ghost use Rattle.std.specs.Prelude.{◌≡◌};
ghost use Rattle.counting.specs.Matrix.{matrix_of};
ghost use Rattle.counting.specs.Checkable.{CheckableMatrix};
ghost use Rattle.counting.specs.Verdict.{matrix_verdict};

use counting::verdict::DifferenceFault;
use differences::{difference_table, differences_deviation};
use finite::pairs::IndexPair;

// The verdict on the matrix whose rows lie one after the other in `entries`.
pub fn check_matrix(
    entries: &[u8],
    rows: usize,
    columns: usize,
    p: usize,
) -> Result<(), DifferenceFault>
    requires { CheckableMatrix entries.now rows columns p }
    ensures { result ≡ matrix_verdict (matrix_of entries.now rows columns p) }
{
    let differences = difference_table(p);
    let mut counters = [0u16; 4096];
    // A `while`, as in the check of a table: each pair is made from the one before it, with its place.
    let mut pair = IndexPair::start();
    while pair.second < columns {
        let first = pair.first;
        let second = pair.second;
        let found = differences_deviation(
            entries,
            rows,
            columns,
            first,
            second,
            p,
            &differences,
            &mut counters,
        );
        if let Some(deviation) = found {
            return Err(DifferenceFault {
                first: first + 1,
                second: second + 1,
                difference: deviation.value,
                times: deviation.times,
            });
        }
        pair = pair.next(columns);
    }
    Ok(())
}
