// What an order comes to, as definitions: the ingredients that its steps name, the outcome of a list, and the conditions under which it is filled, with
// the theorem that every sheet on the way is an orthogonal array. Its types are the code's answer; there is no function.
#![tactic(auto)]

pub mod answer;
