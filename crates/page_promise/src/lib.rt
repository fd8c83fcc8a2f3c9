// What a function that prints a page promises (document 02, K3), and why its answer and its bytes decide all of it. No code.
#![tactic(auto)]
