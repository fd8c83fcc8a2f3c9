// What the ingredients of an order must meet, a table, a difference matrix and a generator, and the verdicts on them. The crates `table_check`,
// `matrix_check` and `generator_check` come to these verdicts.
#![tactic(auto)]

pub mod verdict;
