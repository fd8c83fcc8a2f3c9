// The products of the fields of 2, 3, 4, 5, 7, 8 and 9 elements, from constant tables: the row of the first element, and in it the entry of the
// second. The tables' rule is `field_product` of `galois`.
#![tactic(auto)]

ghost use Rattle.std.specs.Prelude.{◌≡◌};
ghost use Rattle.galois.specs.Arithmetic.{field_product};
ghost use Rattle.galois.specs.Operands.{Operands};

const PRODUCT_2: [[u8; 2]; 2] = [[0, 0], [0, 1]];

const PRODUCT_3: [[u8; 3]; 3] = [[0, 0, 0], [0, 1, 2], [0, 2, 1]];

const PRODUCT_4: [[u8; 4]; 4] = [[0, 0, 0, 0], [0, 1, 2, 3], [0, 2, 3, 1], [0, 3, 1, 2]];

const PRODUCT_5: [[u8; 5]; 5] = [
    [0, 0, 0, 0, 0],
    [0, 1, 2, 3, 4],
    [0, 2, 4, 1, 3],
    [0, 3, 1, 4, 2],
    [0, 4, 3, 2, 1],
];

const PRODUCT_7: [[u8; 7]; 7] = [
    [0, 0, 0, 0, 0, 0, 0],
    [0, 1, 2, 3, 4, 5, 6],
    [0, 2, 4, 6, 1, 3, 5],
    [0, 3, 6, 2, 5, 1, 4],
    [0, 4, 1, 5, 2, 6, 3],
    [0, 5, 3, 1, 6, 4, 2],
    [0, 6, 5, 4, 3, 2, 1],
];

const PRODUCT_8: [[u8; 8]; 8] = [
    [0, 0, 0, 0, 0, 0, 0, 0],
    [0, 1, 2, 3, 4, 5, 6, 7],
    [0, 2, 4, 6, 3, 1, 7, 5],
    [0, 3, 6, 5, 7, 4, 1, 2],
    [0, 4, 3, 7, 6, 2, 5, 1],
    [0, 5, 1, 4, 2, 7, 3, 6],
    [0, 6, 7, 1, 5, 3, 2, 4],
    [0, 7, 5, 2, 1, 6, 4, 3],
];

const PRODUCT_9: [[u8; 9]; 9] = [
    [0, 0, 0, 0, 0, 0, 0, 0, 0],
    [0, 1, 2, 3, 4, 5, 6, 7, 8],
    [0, 2, 1, 6, 8, 7, 3, 5, 4],
    [0, 3, 6, 2, 5, 8, 1, 4, 7],
    [0, 4, 8, 5, 6, 1, 7, 2, 3],
    [0, 5, 7, 8, 1, 3, 4, 6, 2],
    [0, 6, 3, 1, 7, 4, 2, 8, 5],
    [0, 7, 5, 4, 2, 6, 8, 3, 1],
    [0, 8, 4, 7, 3, 2, 5, 1, 6],
];

// The product of a and b in the field of s elements.
pub fn product(s: u8, a: u8, b: u8) -> u8
    requires { Operands s a b }
    ensures { result ≡ field_product s a b }
{
    let i = a as usize;
    let j = b as usize;
    match s {
        2 => PRODUCT_2[i][j],
        3 => PRODUCT_3[i][j],
        4 => PRODUCT_4[i][j],
        5 => PRODUCT_5[i][j],
        7 => PRODUCT_7[i][j],
        8 => PRODUCT_8[i][j],
        _ => PRODUCT_9[i][j],
    }
}
