// The text of the program blockrun (document 01, "Pairs at the edges"): lines read, answers put into a lent buffer.
// Nothing here knows the protocol's state.
#![tactic(auto)]

mod hex;
mod number;
pub mod parse;
pub mod print;
pub mod split;
