// A row of the sheet that step 4, MERGE p, c1 .. c(p+1), leaves: the members, p + 1 columns of p levels, become one column of p × p levels.
// Each column of the sheet has a role in a byte: 0 if it stays, 1 for c1, whose place the merged column takes, 2 for any other member, which goes.
// Between two members all columns stay. Such a stretch is put as a whole, and where it stops is found once for all runs.
#![tactic(auto)]

ghost use Rattle.std.specs.Prelude.{◌≡◌, ◌+◌, ◌*◌, ◌≤◌, ◌<◌, length, get_or};
ghost use Rattle.buffers.specs.Put.{Put};
ghost use Rattle.merged_rows.specs.MergedRow.{HasStops, member_place, merged_row};

use buffers::{put_byte, put_bytes};

// Finds where the stretch that starts at each column stops, from the right: one that starts at a member stops at once, any other where that of
// the next column does. The end of the row has a byte too, so that a row may end with a member.
pub fn find_stops(roles: &[u8], columns: usize, stops: &mut [u8])
    requires { (columns ≤ length roles.now) × (columns ≤ 128) × (columns < length stops.old) }
    ensures { HasStops roles.now columns stops.new }
{
    stops[columns] = columns as u8;
    for column in (0..columns).rev() {
        stops[column] = if roles[column] == 0 {
            stops[column + 1]
        } else {
            column as u8
        };
    }
}

// Puts a row of the new sheet, the levels of a run or the level counts, by the row of the sheet in hand and the entry of the merged column: the
// stretch before each member, what stands in the member's place, and the stretch after the last.
pub fn merge_row(
    row: &[u8],
    roles: &[u8],
    stops: &[u8],
    merged: u8,
    buf: &mut [u8],
    at: usize,
) -> usize
    requires row_in_bounds { length row.now ≤ length roles.now }
    requires has_stops { HasStops roles.now (length row.now) stops.now }
    requires row_in_bounds_2 { at + length row.now ≤ length buf.old }
    ensures { Put buf.old at (merged_row roles.now merged row.now) buf.new result }
{
    let mut place = at;
    let mut column = 0;
    let mut stop = stops[0] as usize;
    // From one stretch to the next, past the member between them: a `for` over the columns would ask each for its role.
    while stop < row.len() {
        place = put_bytes(buf, place, &row[column..stop]);
        place = put_member(buf, place, roles[stop], merged);
        column = stop + 1;
        stop = stops[column] as usize;
    }
    put_bytes(buf, place, &row[column..stop])
}

// Puts what stands in the place of a member: the entry of the merged column in that of c1, and nothing in that of any other.
fn put_member(buf: &mut [u8], at: usize, role: u8, merged: u8) -> usize
    requires { at < length buf.old }
    ensures { Put buf.old at (member_place role merged) buf.new result }
{
    if role != 1 {
        return at;
    }
    put_byte(buf, at, merged)
}

// The level in the merged column of a run, p × c1 + c2.
pub fn merged_level(row: &[u8], p: usize, c1: usize, c2: usize) -> u8
    requires c1_in_bounds { (c1 < length row.now) × (c2 < length row.now) }
    requires c2_bound { p * get_or row.now c1 0 + get_or row.now c2 0 < 256 }
    ensures { result ≡ p * get_or row.now c1 0 + get_or row.now c2 0 }
{
    (p * row[c1] as usize + row[c2] as usize) as u8
}
