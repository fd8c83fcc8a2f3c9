// The table that each kind of step leaves, as a definition, why it is an orthogonal array where the table before was one, and the questions of a step
// decided. No code.
#![tactic(auto)]
