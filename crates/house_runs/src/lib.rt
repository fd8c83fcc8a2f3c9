// The runs of the four house tables as constants, looked up by the table's number, 101 to 104.
#![tactic(auto)]

ghost use Rattle.std.specs.Prelude.{◌≡◌, ◌<◌};
ghost use Rattle.counting.specs.Table.{columns};
ghost use Rattle.house.specs.House.{HouseNumber, house_of};

// L4(2³)
const RUNS_101: [[u8; 3]; 4] = [[0, 0, 0], [0, 1, 1], [1, 0, 1], [1, 1, 0]];

// L9(3⁴)
const RUNS_102: [[u8; 4]; 9] = [
    [0, 0, 0, 0],
    [0, 1, 1, 1],
    [0, 2, 2, 2],
    [1, 0, 1, 2],
    [1, 1, 2, 0],
    [1, 2, 0, 1],
    [2, 0, 2, 1],
    [2, 1, 0, 2],
    [2, 2, 1, 0],
];

// L12(3·2⁴)
const RUNS_103: [[u8; 5]; 12] = [
    [0, 0, 0, 0, 0],
    [0, 1, 1, 1, 0],
    [0, 0, 1, 0, 1],
    [0, 1, 0, 1, 1],
    [1, 0, 0, 0, 1],
    [1, 1, 1, 0, 0],
    [1, 0, 1, 1, 0],
    [1, 1, 0, 1, 1],
    [2, 0, 0, 1, 0],
    [2, 1, 1, 0, 1],
    [2, 0, 1, 1, 1],
    [2, 1, 0, 0, 0],
];

// L12(6·2²)
const RUNS_104: [[u8; 3]; 12] = [
    [0, 0, 0],
    [0, 1, 1],
    [1, 0, 1],
    [1, 1, 0],
    [2, 0, 0],
    [2, 1, 1],
    [3, 0, 1],
    [3, 1, 0],
    [4, 0, 0],
    [4, 1, 1],
    [5, 0, 1],
    [5, 1, 0],
];

// The level in a run and a column.
pub fn cell(number: usize, run: usize, column: usize) -> u8
    requires house_number { HouseNumber number }
    requires run_bound { (run < (house_of number).runs) × (column < columns (house_of number)) }
    ensures { result ≡ (house_of number).cell run column }
{
    match number {
        101 => RUNS_101[run][column],
        102 => RUNS_102[run][column],
        103 => RUNS_103[run][column],
        _ => RUNS_104[run][column],
    }
}
