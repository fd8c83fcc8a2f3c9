// How a sheet lies in the buffers, and what the function of a step takes and leaves: definitions in specs/, their laws in proofs/. The crates
// `table_putting` and `settling` have the code.
#![tactic(auto)]

// The size of a sheet, and its spare degrees (02, K1). Its runs lie in the run table one after the other, its level counts at the front of the
// level list.
#[derive(Clone, Copy)]
pub struct Size {
    pub runs: usize,
    pub columns: usize,
    pub spare: i64,
}
