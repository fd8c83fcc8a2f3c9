// A page of a sheet that is handed in (document 02, K3).
#![tactic(auto)]

ghost use Rattle.page_promise.specs.PagePromise.{PagePromise};

use buffers::clear;
use given_sheet::is_well_formed;
use page_counts::page_count;
use page_putting::put_page;

// Prints a page of a sheet into a buffer, and zeros after it, and answers 0; or answers 02's number of a refusal, 1 for the sheet, 12 for a buffer
// that is too short, 13 for a page that there is not, and leaves zeros throughout. Nothing is required of a caller: any sheet is answered, and any number.
pub fn print_page(
    table: &[u8],
    levels: &[u8],
    runs: usize,
    columns: usize,
    number: usize,
    page: &mut [u8],
) -> usize
    ensures { PagePromise runs columns levels.now table.now number page.old result page.new }
{
    clear(page);
    if !is_well_formed(runs, columns, levels, table) {
        return 1;
    }
    if page.len() < 4800 {
        return 12;
    }
    if !((1 <= number) & (number <= page_count(runs, columns))) {
        return 13;
    }
    put_page(table, levels, runs, columns, number, page, 0);
    0
}
