// The sums in the fields of 4, 8 and 9 elements as an array, from which step 3, SUM, looks them up (02, K2).
#![tactic(auto)]

ghost use Rattle.std.specs.Prelude.{◌≡◌, ◌*◌, ◌≤◌, T, length};
ghost use Rattle.galois.specs.Levels.{over_field};
ghost use Rattle.sum_tables.specs.Tables.{FieldSums, FieldTables, SameBefore};

use group_sums::{level_sum, over_field};

// The sums in the fields of 4, 8 and 9 elements, as far as a matrix serves them: that of a and b in the field of s elements stands at
// s times 81 plus a times s plus b. A look-up in a field's constant table copies that table, so a step makes this array once.
pub fn field_tables(widths: &[u8]) -> [u8; 810]
    requires { 10 ≤ length widths.now }
    ensures { FieldTables widths.now 10 result }
{
    let mut sums = [0u8; 810];
    for s in 4..10 {
        if over_field(s) && 0 < widths[s as usize] {
            put_field_sums(&mut sums, s);
        }
    }
    sums
}

// The sums in the field of s elements. What stands before them stays.
fn put_field_sums(sums: &mut [u8], s: u8)
    requires t { T (over_field s) }
    requires sums_len { length sums.old ≡ 810 }
    ensures field_sums { FieldSums s (s * s) sums.new }
    ensures same_before { SameBefore (s * 81) sums.old sums.new }
{
    let size = s as usize;
    let start = size * 81;
    for q in 0..size * size {
        sums[start + q] = level_sum(s, (q / size) as u8, (q % size) as u16);
    }
}
