// Lent memory (document 01, "The two machines" and "Words on the bus"): words written into and read out of parts of a store,
// a block carried whole, and the sixteen marks of a terminal.
#![tactic(auto)]

pub mod copies;
pub mod marks;
pub mod reader;
pub mod whole;
pub mod writer;
