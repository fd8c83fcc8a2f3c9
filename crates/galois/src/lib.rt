// The fields of 2, 3, 4, 5, 7, 8 and 9 elements: their arithmetic, that it has the field laws, what stands in a table of it, and combinations with
// what follows from the laws. No code.
#![tactic(auto)]
