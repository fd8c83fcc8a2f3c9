// The sums of the fields of 2, 3, 4, 5, 7, 8 and 9 elements, from constant tables: the row of the first element, and in it the entry of the
// second. The tables' rule is `field_sum` of `galois`.
#![tactic(auto)]

ghost use Rattle.std.specs.Prelude.{◌≡◌};
ghost use Rattle.galois.specs.Arithmetic.{field_sum};
ghost use Rattle.galois.specs.Operands.{Operands};

const SUM_2: [[u8; 2]; 2] = [[0, 1], [1, 0]];

const SUM_3: [[u8; 3]; 3] = [[0, 1, 2], [1, 2, 0], [2, 0, 1]];

const SUM_4: [[u8; 4]; 4] = [[0, 1, 2, 3], [1, 0, 3, 2], [2, 3, 0, 1], [3, 2, 1, 0]];

const SUM_5: [[u8; 5]; 5] = [
    [0, 1, 2, 3, 4],
    [1, 2, 3, 4, 0],
    [2, 3, 4, 0, 1],
    [3, 4, 0, 1, 2],
    [4, 0, 1, 2, 3],
];

const SUM_7: [[u8; 7]; 7] = [
    [0, 1, 2, 3, 4, 5, 6],
    [1, 2, 3, 4, 5, 6, 0],
    [2, 3, 4, 5, 6, 0, 1],
    [3, 4, 5, 6, 0, 1, 2],
    [4, 5, 6, 0, 1, 2, 3],
    [5, 6, 0, 1, 2, 3, 4],
    [6, 0, 1, 2, 3, 4, 5],
];

const SUM_8: [[u8; 8]; 8] = [
    [0, 1, 2, 3, 4, 5, 6, 7],
    [1, 0, 3, 2, 5, 4, 7, 6],
    [2, 3, 0, 1, 6, 7, 4, 5],
    [3, 2, 1, 0, 7, 6, 5, 4],
    [4, 5, 6, 7, 0, 1, 2, 3],
    [5, 4, 7, 6, 1, 0, 3, 2],
    [6, 7, 4, 5, 2, 3, 0, 1],
    [7, 6, 5, 4, 3, 2, 1, 0],
];

const SUM_9: [[u8; 9]; 9] = [
    [0, 1, 2, 3, 4, 5, 6, 7, 8],
    [1, 2, 0, 4, 5, 3, 7, 8, 6],
    [2, 0, 1, 5, 3, 4, 8, 6, 7],
    [3, 4, 5, 6, 7, 8, 0, 1, 2],
    [4, 5, 3, 7, 8, 6, 1, 2, 0],
    [5, 3, 4, 8, 6, 7, 2, 0, 1],
    [6, 7, 8, 0, 1, 2, 3, 4, 5],
    [7, 8, 6, 1, 2, 0, 4, 5, 3],
    [8, 6, 7, 2, 0, 1, 5, 3, 4],
];

// The sum of a and b in the field of s elements.
pub fn sum(s: u8, a: u8, b: u8) -> u8
    requires { Operands s a b }
    ensures { result ≡ field_sum s a b }
{
    let i = a as usize;
    let j = b as usize;
    match s {
        2 => SUM_2[i][j],
        3 => SUM_3[i][j],
        4 => SUM_4[i][j],
        5 => SUM_5[i][j],
        7 => SUM_7[i][j],
        8 => SUM_8[i][j],
        _ => SUM_9[i][j],
    }
}
