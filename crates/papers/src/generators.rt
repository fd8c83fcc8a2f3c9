// Generators as 004 prints them: a digit for each field element, a line for each row.

// Example 2.1: two columns for the first factor, one for each of the three others, over GF(2).
pub const EXAMPLE_2_1: [u8; 4 * 5] = *b"\
    10000\
    01001\
    00101\
    00011";

// Theorem 3.7 (i): two columns for the first factor, one for each of the thirteen others, over GF(3).
pub const THEOREM_3_7_I: [u8; 5 * 15] = *b"\
    100001001212001\
    010010021022212\
    000000111111111\
    000111000111222\
    001012012012012";

// Theorem 3.7 (ii): two columns for each of the first two factors, one for each of the nine others, over GF(3).
pub const THEOREM_3_7_II: [u8; 5 * 13] = *b"\
    1000000111222\
    0100012012012\
    0010002012121\
    0001010221021\
    0000111111111";

// Remark 4.1: two columns for the first factor, one for each of the four others, over GF(2).
pub const REMARK_4_1: [u8; 5 * 6] = *b"\
    100001\
    010001\
    001001\
    000101\
    000011";
