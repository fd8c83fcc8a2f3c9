// What the checks answer: `Ok(())` for what passes, and otherwise a fault. Columns and factors are named from 1, levels
// and differences from 0; `times` is a number of runs.

// What is wrong with a table: a level of a column, or a pair of levels of two columns.
#[derive(Clone, Copy)]
pub enum TableFault {
    Column {
        column: usize,
        level: usize,
        times: usize,
    },
    Pair {
        first: usize,
        second: usize,
        first_level: usize,
        second_level: usize,
        times: usize,
    },
}

// What was found, and by how much the pair of levels that it names is off (02, K5): s x t x times less the number of runs, which is below zero where the
// pair is short and above where it is over. Where no pair is named the gap is 0. And how many pairs of columns were counted (02, K8): all for a table that
// passes, up to the two that are named, or none where a column is.
#[derive(Clone, Copy)]
pub struct TableVerdict {
    pub finding: Result<(), TableFault>,
    pub gap: i64,
    pub pairs: usize,
}

// What is wrong with a difference matrix: a difference of two columns, first minus second.
#[derive(Clone, Copy)]
pub struct DifferenceFault {
    pub first: usize,
    pub second: usize,
    pub difference: usize,
    pub times: usize,
}

// What is wrong with a generator: coefficients, read base s, first highest, that combine the columns of two factors to zero. An only factor
// has 0 in the place of a second.
#[derive(Clone, Copy)]
pub struct DependenceFault {
    pub first: usize,
    pub second: usize,
    pub coefficients: usize,
}
