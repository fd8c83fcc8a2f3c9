// SUM in bytes: where its matrices stand in the list, and the bytes that it leaves, as definitions (specs/) and with the laws that tie them to the
// definition of the step (proofs/).
#![tactic(auto)]

// A matrix of the list: its sizes, and the place where its entries start. One with no rows stands for none.
#[derive(Clone, Copy)]
pub struct MatrixPlace {
    pub rows: usize,
    pub columns: usize,
    pub p: usize,
    pub start: usize,
}
