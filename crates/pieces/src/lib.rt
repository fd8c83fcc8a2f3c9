// Lists made of pieces, one for each of the numbers from 0 on, bytes that are put into a lent buffer so, and buffers with zeros after what they hold. No code.
#![tactic(auto)]
