// Both ends of one distribution link and the bus between them: one function for each event of a run (document 01, "Distribution").
#![tactic(auto)]

pub mod bus;
pub mod events;
pub mod state;
