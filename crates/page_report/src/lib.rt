// What the program of run sheets prints of an order (document 02, K3). It is put whole into a buffer, so that a program only has to read, to plan and to write.
#![tactic(auto)]

ghost use Rattle.std.specs.Prelude.{◌≤◌, length};
ghost use Rattle.buffers.specs.Put.{Put};
ghost use Rattle.given_sheet.specs.Given.{WellFormed, given_sheet};
ghost use Rattle.page_argument.specs.declared.Asked.TheVariants.{One};
ghost use Rattle.page_report.specs.PageReport.{all_pages, sheet_pages, page_room};

use lines::put_refusal;
use page_argument::Asked;
use page_counts::page_count;
use page_putting::put_page;

// Puts the pages of a sheet that are asked for at the front of a buffer, or the refusal of a page that there is not.
pub fn put_asked(
    asked: Asked,
    table: &[u8],
    levels: &[u8],
    runs: usize,
    columns: usize,
    buf: &mut [u8],
) -> usize
    requires well_formed { WellFormed runs columns levels.now table.now }
    requires page_room_in_bounds { page_room ≤ length buf.old }
    ensures { Put buf.old 0 (sheet_pages asked (given_sheet runs columns levels.now table.now)) buf.new result }
{
    match asked {
        Asked::All => put_all_pages(table, levels, runs, columns, buf),
        Asked::One(number) => put_one_page(table, levels, runs, columns, number, buf),
    }
}

// All pages of a sheet, one after the other.
#[tactic(auto, using(crate::proofs::Pages::pages_put))]
fn put_all_pages(table: &[u8], levels: &[u8], runs: usize, columns: usize, buf: &mut [u8]) -> usize
    requires well_formed { WellFormed runs columns levels.now table.now }
    requires page_room_in_bounds { page_room ≤ length buf.old }
    ensures { Put buf.old 0 (all_pages (given_sheet runs columns levels.now table.now)) buf.new result }
{
    let count = page_count(runs, columns);
    let mut place = 0;
    for before in 0..count {
        place = put_page(table, levels, runs, columns, before + 1, buf, place);
    }
    place
}

// The page with a number, or the line of refusal 13.
fn put_one_page(
    table: &[u8],
    levels: &[u8],
    runs: usize,
    columns: usize,
    number: usize,
    buf: &mut [u8],
) -> usize
    requires well_formed { WellFormed runs columns levels.now table.now }
    requires page_room_in_bounds { page_room ≤ length buf.old }
    ensures { Put buf.old 0 (sheet_pages (One number) (given_sheet runs columns levels.now table.now)) buf.new result }
{
    if !((1 <= number) & (number <= page_count(runs, columns))) {
        return put_refusal(buf, 0, [13, 0, 0, 0, 0, 0, 0]);
    }
    put_page(table, levels, runs, columns, number, buf, 0)
}
