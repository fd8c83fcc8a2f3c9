// The number of pages of a sheet (document 02, K3).
#![tactic(auto)]

ghost use Rattle.std.specs.Prelude.{◌≡◌, ◌≤◌};
ghost use Rattle.page_text.specs.Pages.{parts, page_count};

// The number of pages of a sheet within the limits.
pub fn page_count(runs: usize, columns: usize) -> usize
    requires { (runs ≤ 512) × (columns ≤ 128) }
    ensures { result ≡ page_count runs columns }
{
    run_parts(runs) * columns.div_ceil(25)
}

// How many pages the runs take that 25 columns have.
pub fn run_parts(runs: usize) -> usize
    requires { runs ≤ 512 }
    ensures { result ≡ parts 58 runs }
{
    runs.div_ceil(58)
}
