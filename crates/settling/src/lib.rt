// A sheet that a step has built in the scratch takes the place of the sheet in hand.
#![tactic(auto)]

ghost use Rattle.std.specs.Prelude.{◌≡◌, ◌≤◌, length, take, drop};
ghost use Rattle.layout.specs.Bytes.{Zeros, padded};

use buffers::{clear, put_bytes};

// Puts some bytes in the place of the used bytes of a buffer in which all else is zero. Only what is left of the used bytes after them is
// cleared: the others are written over.
fn replace(buf: &mut [u8], used: usize, bytes: &[u8])
    requires used_in_bounds { used ≤ length buf.old }
    requires zeros { Zeros (drop used buf.old) }
    requires bytes_in_bounds { length bytes.now ≤ length buf.old }
    ensures { buf.new ≡ padded (length buf.old) bytes.now }
{
    let end = put_bytes(buf, 0, bytes);
    if end < used {
        clear(&mut buf[end..used]);
    }
}

// The built runs are the first bytes of the scratch, and the counts are the new level counts. The scratch is zeros again at the end.
pub fn settle(
    used: usize,
    columns: usize,
    built: usize,
    counts: &[u8],
    table: &mut [u8],
    levels: &mut [u8],
    scratch: &mut [u8],
)
    requires used_in_bounds { (used ≤ length table.old) × Zeros (drop used table.old) }
    requires columns_in_bounds { (columns ≤ length levels.old) × Zeros (drop columns levels.old) }
    requires built_in_bounds { (built ≤ length scratch.old) × Zeros (drop built scratch.old) }
    requires built_in_bounds_2 { (built ≤ length table.old) × (length counts.now ≤ length levels.old) }
    ensures table_after { table.new ≡ padded (length table.old) (take built scratch.old) }
    ensures levels_after { levels.new ≡ padded (length levels.old) counts.now }
    ensures zeros { Zeros scratch.new }
{
    replace(table, used, &scratch[..built]);
    replace(levels, columns, counts);
    clear(&mut scratch[..built]);
}
