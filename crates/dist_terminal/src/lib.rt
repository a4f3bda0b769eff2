// The terminal's end of distribution (document 01, "Distribution"; 001 clause 8.6.1.2): it acts on a message at arrival.
#![tactic(auto)]

pub mod calls;
pub mod data;
pub mod descriptor;
pub mod length;
pub mod state;
pub mod take;
