// The controller's end of distribution (document 01, "Distribution"; 001 clause 8.6.1.1): it asks for messages and is told their outcomes.
#![tactic(auto)]

pub mod asked;
pub mod events;
pub mod message;
pub mod report;
pub mod state;
pub mod submit;
pub mod told;
