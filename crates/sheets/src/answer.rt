// What an order comes to.

// Why an order is refused: document 01, "The questions, in turn". Columns, factors, steps, ingredients and members are named from 1; places, runs
// and levels from 0; `times` is a number of runs.
#[derive(Clone, Copy)]
pub enum Refusal {
    ShortBuffers,
    Unreadable {
        place: usize,
    },
    EntryOutOfRange {
        place: usize,
    },
    UnevenLevel {
        ingredient: usize,
        column: usize,
        level: usize,
        times: usize,
    },
    UnevenPair {
        ingredient: usize,
        first: usize,
        second: usize,
        first_level: usize,
        second_level: usize,
        times: usize,
    },
    UnevenDifference {
        ingredient: usize,
        first: usize,
        second: usize,
        difference: usize,
        times: usize,
    },
    // The coefficients are read base s, the first highest; an only factor has 0 in the place of a second.
    Dependent {
        ingredient: usize,
        first: usize,
        second: usize,
        coefficients: usize,
    },
    StepNotAllowed {
        step: usize,
    },
    PartsDoNotFit {
        step: usize,
    },
    NotTheSum {
        step: usize,
        run: usize,
        member: usize,
    },
    TooLarge {
        step: usize,
        runs: usize,
        columns: usize,
    },
    // A value of a column of a matrix that serves the sheet in a CROSS (02, K6).
    UnevenValue {
        step: usize,
        ingredient: usize,
        column: usize,
        value: usize,
    },
}

// The size of the table that was written and its spare degrees (02, K1), or why there is none.
#[derive(Clone, Copy)]
pub enum Answer {
    Filled {
        runs: usize,
        columns: usize,
        spare: i64,
    },
    Refused(Refusal),
}
