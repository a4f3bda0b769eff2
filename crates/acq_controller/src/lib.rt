// The controller's end of acquisition (document 01, "Acquisition"; 001 clause 8.6.2.1): it asks for messages and is told their outcomes.
#![tactic(auto)]

pub mod asked;
pub mod data;
pub mod events;
pub mod report;
pub mod request;
pub mod state;
pub mod told;
