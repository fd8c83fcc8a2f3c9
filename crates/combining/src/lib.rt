// How the check of a generator combines columns: its types, the definitions of what is combined, and the laws from there to the verdict. No function.
#![tactic(auto)]

// Where the columns of a factor start in a row, and how many they are.
#[derive(Clone, Copy)]
pub struct Block {
    pub start: usize,
    pub width: usize,
}

// Coefficients that are left to use, the last one lowest, and the combination so far.
#[derive(Clone, Copy)]
pub struct Combining {
    pub rest: usize,
    pub sum: u8,
}
