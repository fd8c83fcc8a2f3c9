// The sheet that a filled order hands back, as one that can be handed in (document 02, K3), and what is shown of it: laws alone (proofs/).
#![tactic(auto)]
