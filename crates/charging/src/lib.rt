// The charge for a sheet that is handed in (document 02, K7).
#![tactic(auto)]

ghost use Rattle.std.specs.Prelude.{◌≡◌, ℕ, ◌+◌, ◌*◌, ◌≤◌, ◌<◌, length, get_or};
ghost use Rattle.finite.specs.Sum.{bit};
ghost use Rattle.charges.specs.Charge.{rounded};
ghost use Rattle.charges.specs.ChargePromise.{ChargePromise};
ghost use Rattle.charging.specs.Changes.{differs, change_count, priced_counts};

use charges::Quote;
use given_sheet::is_well_formed;

// Charges a sheet by a price list: a price for each run, one for a changed level in each column, and a discount in percent. The answer is 0 with the charge in pence, or 02's
// number of a refusal, 1 for the sheet, 15 for the price list, with a charge of 0. Nothing is required of a caller: any sheet is answered, and any price list.
pub fn charge_sheet(
    table: &[u8],
    levels: &[u8],
    runs: usize,
    columns: usize,
    run_price: u32,
    prices: &[u32],
    discount: u32,
) -> Quote
    ensures { ChargePromise runs columns levels.now table.now run_price prices.now discount result.answer result.charge }
{
    if !is_well_formed(runs, columns, levels, table) {
        return Quote {
            answer: 1,
            charge: 0,
        };
    }
    if !((discount <= 100) & (prices.len() == columns)) {
        return Quote {
            answer: 15,
            charge: 0,
        };
    }
    let sum = runs as u64 * run_price as u64 + price_changes(table, runs, prices);
    Quote {
        answer: 0,
        charge: round(sum * (100 - discount) as u64),
    }
}

// The nearest whole number to so many hundredths, halves up.
fn round(hundredths: u64) -> u64
    requires { hundredths + 50 < 18446744073709551616 }
    ensures { result ≡ rounded hundredths }
{
    (hundredths + 50) / 100
}

// What all changed levels of so many runs cost.
fn price_changes(table: &[u8], runs: usize, prices: &[u32]) -> u64
    requires { (runs ≤ 512) × (length prices.now ≤ 128) × (runs * length prices.now ≤ length table.now) }
    ensures { result ≡ priced_counts (change_count table.now (length prices.now) runs) prices.now }
{
    let mut counts = [0u16; 128];
    let columns = prices.len();
    count_and_price(table, runs, prices, &mut counts[..columns])
}

// The same with a count for each column, which begins with 0. Changes are counted before a price is looked at, so that the compiler can have the entries of
// several columns compared at once.
fn count_and_price(table: &[u8], runs: usize, prices: &[u32], counts: &mut [u16]) -> u64
    requires runs_bound { (runs ≤ 512) × (length prices.now ≤ 128) × (runs * length prices.now ≤ length table.now) }
    requires counts_len { length counts.old ≡ length prices.now }
    requires by_index { (c : ℕ) → get_or counts.old c 0 ≡ 0 }
    ensures { result ≡ priced_counts (change_count table.now (length prices.now) runs) prices.now }
{
    count_changes(table, runs, counts);
    price_counts(counts, prices)
}

// Counts for each column the runs that have another level in it than the run before. The counts begin with zeros.
fn count_changes(table: &[u8], runs: usize, counts: &mut [u16])
    requires runs_bound { (runs ≤ 512) × (runs * length counts.old ≤ length table.now) }
    requires by_index { (c : ℕ) → get_or counts.old c 0 ≡ 0 }
    ensures { (c : ℕ) → c < length counts.old → get_or counts.new c 0 ≡ change_count table.now (length counts.old) runs c }
{
    for run in 0..runs.saturating_sub(1) {
        count_next(table, run * counts.len(), counts);
    }
}

// Adds 1 to the count of each column in which the run after the one that starts at a place has another level.
fn count_next(table: &[u8], start: usize, counts: &mut [u16])
    requires counts_in_bounds { start + length counts.old + length counts.old ≤ length table.now }
    requires by_index { (c : ℕ) → c < length counts.old → get_or counts.old c 0 ≤ 512 }
    ensures { (c : ℕ) → c < length counts.old → get_or counts.new c 0 ≡ get_or counts.old c 0 + bit (differs table.now (length counts.old) start c) }
{
    let next = start + counts.len();
    for (c, count) in counts.iter_mut().enumerate() {
        *count += (table[next + c] != table[start + c]) as u16;
    }
}

// Each column's price as often as it changes.
fn price_counts(counts: &[u16], prices: &[u32]) -> u64
    requires { (length prices.now ≤ 128) × (length prices.now ≤ length counts.now) }
    ensures { result ≡ priced_counts (λ c. get_or counts.now c 0) prices.now }
{
    let mut pence = 0;
    for (c, price) in prices.iter().enumerate() {
        pence += counts[c] as u64 * *price as u64;
    }
    pence
}
