// Both ends of acquisition with the bus between them, one function for each event of a run (document 01, "Acquisition").
#![tactic(auto)]

pub mod bus;
pub mod events;
pub mod state;
