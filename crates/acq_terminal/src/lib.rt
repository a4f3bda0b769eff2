// The terminal's end of acquisition (document 01, "Acquisition"; 001 clause 8.6.2.2): it acts on a message at arrival.
#![tactic(auto)]

pub mod calls;
pub mod place;
pub mod receive;
pub mod state;
pub mod transmit;
