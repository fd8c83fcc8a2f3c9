// Question 6 of step 4, MERGE p, c1 .. c(p+1): do the members, p + 1 columns of p levels, fit the sheet in hand? The list names columns from 1.
// Question 7, whether each from the third on is its sum, is asked in `member_check`.
// Each column of the sheet has a role in a byte: 0 if it stays, 1 for c1, whose place the merged column takes, 2 for any other member, which goes.
#![tactic(auto)]

ghost use Rattle.std.specs.Prelude.{◌≡◌, true, [], ◌≤◌, ◌<◌, length, get_or};
ghost use Rattle.counting.specs.Table.{table_of};
ghost use Rattle.step_tables.specs.Merge.{merge_fits};
ghost use Rattle.merge_questions.specs.Questions.{members_of, Named, HasRoles};

// Question 6: are the members columns of the sheet, all different, of p levels? If so, every column then has its role. A member whose column
// has a role already is named twice.
pub fn assign_roles(members: &[u16], p: usize, levels: &[u8], roles: &mut [u8]) -> bool
    requires named { Named p members.now }
    requires levels_in_bounds { (length levels.now ≤ length roles.old) × HasRoles [] roles.old }
    ensures value { result ≡ merge_fits p (members_of members.now) (table_of [] levels.now 0) }
    ensures has_roles { result ≡ true → HasRoles (members_of members.now) roles.new }
{
    for h in 0..members.len() {
        let column = column_of(members, h);
        if column >= levels.len() {
            return false;
        }
        if levels[column] as usize != p {
            return false;
        }
        if roles[column] != 0 {
            return false;
        }
        roles[column] = if h == 0 { 1 } else { 2 };
    }
    true
}

// The column, from 0, of the member at h, from 0.
pub fn column_of(members: &[u16], h: usize) -> usize
    requires h_in_bounds { h < length members.now }
    requires bound { 1 ≤ get_or members.now h 0 }
    ensures { result ≡ get_or (members_of members.now) h 0 }
{
    members[h] as usize - 1
}
