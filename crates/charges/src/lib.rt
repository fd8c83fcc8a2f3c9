// The charge for a sheet by a price list (document 02, K7), as definitions (specs/) and with the laws that the code rests on (proofs/).
#![tactic(auto)]

// What is answered of a sheet and a price list: 0 and the charge in pence, or the number of the refusal, 1 or 15, and 0.
#[derive(Clone, Copy)]
pub struct Quote {
    pub answer: usize,
    pub charge: u64,
}
