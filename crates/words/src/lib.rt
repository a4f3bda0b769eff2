// Words on the bus: what one link of the Data Block Transfer service sends and reads, as numbers
// (document 01, "Words on the bus" and "The two machines"). No function here touches memory.
#![tactic(auto)]

pub mod command;
pub mod control;
pub mod count;
pub mod cutting;
pub mod link;
pub mod message;
pub mod reading;
pub mod refusal;
pub mod status;
pub mod tick;
