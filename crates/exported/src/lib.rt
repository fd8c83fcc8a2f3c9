// The planner, its pages and charges, and the check of a table, for programs in Rust, C and other languages: numbers and slices alone. include/yurbantze.h is the declaration for C.
#![tactic(auto)]

ghost use Rattle.charges.specs.ChargePromise.{ChargePromise};
ghost use Rattle.page_promise.specs.PagePromise.{PagePromise};
ghost use Rattle.promise.specs.PromiseInNumbers.{PromiseInNumbers};
ghost use Rattle.written_table.specs.CheckInNumbers.{CheckInNumbers};

use charging::charge_sheet;
use construction::plan;
use numbering::{answer_numbers, answer_spare};
use paging::print_page;
use written_check::{check_numbers, check_written};

// Plans an order, as `construction::plan` does. The answer is seven numbers: 0, the numbers of runs and columns, and zeros for a filled order, or
// 01's number of the refusal and its six details. The first is returned. Beside them is a signed number: the spare degrees of a filled order (02,
// K1), and 0 for a refusal. Nothing is required of a caller: any list is answered, whatever the lengths of the buffers and whatever they hold.
#[unsafe(no_mangle)]
pub extern "C" fn yurbantze_plan(
    list: &[u16],
    table: &mut [u8],
    levels: &mut [u8],
    scratch: &mut [u8],
    answer: &mut [usize; 7],
    spare: &mut i64,
) -> usize
    ensures { PromiseInNumbers list.now table.old levels.old scratch.old result answer.new spare.new table.new levels.new scratch.new }
{
    let planned = plan(list, table, levels, scratch);
    let numbers = answer_numbers(planned);
    *answer = numbers;
    *spare = answer_spare(planned);
    numbers[0]
}

// Prints a page of a sheet (02, K3), as `paging::print_page` does: 0, or the number of the refusal. Nothing is required of a caller here either.
#[unsafe(no_mangle)]
pub extern "C" fn yurbantze_page(
    table: &[u8],
    levels: &[u8],
    runs: usize,
    columns: usize,
    number: usize,
    page: &mut [u8],
) -> usize
    ensures { PagePromise runs columns levels.now table.now number page.old result page.new }
{
    print_page(table, levels, runs, columns, number, page)
}

// Charges a sheet by a price list (02, K7), as `charging::charge_sheet` does: 0, or the number of the refusal. Beside it is the charge in pence, and 0 for a
// refusal. Nothing is required of a caller here either.
#[unsafe(no_mangle)]
pub extern "C" fn yurbantze_charge(
    table: &[u8],
    levels: &[u8],
    runs: usize,
    columns: usize,
    run_price: u32,
    prices: &[u32],
    discount: u32,
    charge: &mut u64,
) -> usize
    ensures { ChargePromise runs columns levels.now table.now run_price prices.now discount result charge.new }
{
    let quote = charge_sheet(table, levels, runs, columns, run_price, prices, discount);
    *charge = quote.charge;
    quote.answer
}

// Checks a table that is handed in by itself (02, K5 and K8), as `written_check::check_written` does: kind 1, rows, columns, level counts and entries. The answer
// is seven numbers: zeros for a table that passes, or 01's number of the refusal, 2 to 5, and its six details, the table being ingredient 1. The first is
// returned. Beside them is a signed number, the gap of the pair that refusal 5 names, and 0 otherwise; and how many pairs of columns were
// counted. Nothing is required of a caller here either.
#[unsafe(no_mangle)]
pub extern "C" fn yurbantze_check_table(
    list: &[u16],
    answer: &mut [usize; 7],
    gap: &mut i64,
    pairs: &mut usize,
) -> usize
    ensures { CheckInNumbers list.now result answer.new gap.new pairs.new }
{
    let check = check_written(list);
    let passing = check.passing;
    let signed = check.gap;
    let seven = check_numbers(passing);
    *answer = seven;
    *gap = signed;
    *pairs = check.pairs;
    seven[0]
}
