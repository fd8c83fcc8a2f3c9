// The four house tables: their sizes, and their level counts as constants, looked up by the table's number, 101 to 104.
#![tactic(auto)]

ghost use Rattle.std.specs.Prelude.{◌≡◌, ◌<◌};
ghost use Rattle.counting.specs.Table.{columns, levels_of};
ghost use Rattle.house.specs.House.{HouseNumber, house_of};

// L4(2³)
const LEVELS_101: [u8; 3] = [2, 2, 2];

// L9(3⁴)
const LEVELS_102: [u8; 4] = [3, 3, 3, 3];

// L12(3·2⁴)
const LEVELS_103: [u8; 5] = [3, 2, 2, 2, 2];

// L12(6·2²)
const LEVELS_104: [u8; 3] = [6, 2, 2];

// How many runs a house table has.
pub fn runs(number: usize) -> usize
    requires { HouseNumber number }
    ensures { result ≡ (house_of number).runs }
{
    match number {
        101 => 4,
        102 => 9,
        103 => 12,
        _ => 12,
    }
}

// How many columns it has.
pub fn width(number: usize) -> usize
    requires { HouseNumber number }
    ensures { result ≡ columns (house_of number) }
{
    match number {
        101 => 3,
        102 => 4,
        103 => 5,
        _ => 3,
    }
}

// The level count of a column.
pub fn level_count(number: usize, column: usize) -> u8
    requires house_number { HouseNumber number }
    requires column_bound { column < columns (house_of number) }
    ensures { result ≡ levels_of (house_of number) column }
{
    match number {
        101 => LEVELS_101[column],
        102 => LEVELS_102[column],
        103 => LEVELS_103[column],
        _ => LEVELS_104[column],
    }
}
