// The sheet that the numbers of a stored call make.
#![tactic(auto)]

ghost use Rattle.std.specs.Prelude.{◌≡◌, ℕ, ◌+◌, ◌≤◌, ◌<◌, length, get_or};
ghost use Rattle.stored_sheets.specs.Repeated.{repeated};
ghost use Rattle.stored_sheets.specs.StoredSheets.{stored_sheet};

use stored_calls::{least, number_at};

// Fills a buffer with some numbers of a list, each modulo 256, over and over; with none it stays as it is.
pub fn repeat(list: &[u16], start: usize, count: usize, bytes: &mut [u8])
    requires { (start ≤ 65536) × (count ≤ 65536) }
    ensures { (i : ℕ) → i < length bytes.old → get_or bytes.new i 0 ≡ repeated list.now start count bytes.old i }
{
    if count == 0 {
        return;
    }
    for (i, byte) in bytes.iter_mut().enumerate() {
        *byte = (number_at(list, start + i % count) % 256) as u8;
    }
}

// A sheet as a call holds it: its level list is the `counts` numbers of the list from the place `levels` on, and its table has so many `bytes`, which are the `given` numbers
// from the place `cells` on, over and over.
#[derive(Clone, Copy)]
pub struct StoredSheet {
    pub levels: usize,
    pub counts: usize,
    pub bytes: usize,
    pub cells: usize,
    pub given: usize,
}

// The sheet that a call holds from a place of a list on. However large its numbers are, the programs have room for it.
pub fn sheet_at(list: &[u16], at: usize) -> StoredSheet
    requires { at ≤ 65536 }
    ensures value { result ≡ stored_sheet list.now at }
    ensures counts_bound { (result.counts ≤ 255) × (result.bytes ≤ 65536) × (result.given ≤ 4096) }
    ensures levels_value { (result.levels ≡ at + 1) × (result.cells ≡ result.levels + result.counts + 3) }
{
    let levels = at + 1;
    let counts = least(number_at(list, at), 255);
    let shape = levels + counts;
    let bytes = least(number_at(list, shape) * number_at(list, shape + 1), 65536);
    let given = least(number_at(list, shape + 2), 4096);
    StoredSheet {
        levels,
        counts,
        bytes,
        cells: shape + 3,
        given,
    }
}
