// What the planner promises, and why the answer and the bytes decide all of it. No code.
#![tactic(auto)]
