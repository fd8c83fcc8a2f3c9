// A table that is handed in by itself, as an ingredient is written in an order, and what is answered of it (document 02, K5 and K8), as definitions (specs/)
// and with the laws that the code rests on (proofs/).
#![tactic(auto)]

use sheets::answer::Refusal;

// Whether the table passes, or why not; the signed gap of the pair that is named, 0 where none is; and how many pairs of columns were counted.
#[derive(Clone, Copy)]
pub struct TableCheck {
    pub passing: Result<(), Refusal>,
    pub gap: i64,
    pub pairs: usize,
}
