// The tables that numbers name, in the list where they stand or among the house tables.
#![tactic(auto)]

pub mod named; // named.rt: the table that a number names, by its places in the list or by its house number
