// Question 4 on a list and two buffers, does every ingredient meet its published definition?, as definitions (specs/) and with the laws that the
// code rests on (proofs/).
#![tactic(auto)]
