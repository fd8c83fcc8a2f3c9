// The pages of a sheet, byte by byte, and how many there are, as definitions (document 02, K3); and that every line has its 79 characters and a line feed. No code.
#![tactic(auto)]
