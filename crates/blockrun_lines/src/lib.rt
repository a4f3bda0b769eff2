// The answer to a line of blockrun: what it does to the link, and the bytes that are written (document 01, "Pairs at the edges").
#![tactic(auto)]

pub mod answer;
pub mod line;
pub mod print;
