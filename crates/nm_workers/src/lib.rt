//! Committing and publishing: one job over many inputs in several threads, the results in the order of the inputs,
//! and the gates at which a seat can be held until another has come.
#![tactic(auto)]

mod gate;
mod job;
mod map;
mod meet_gate;
mod results;
mod worker;

pub use gate::{Gate, OpenGate};
pub use job::Job;
pub use map::{map_jobs, map_jobs_beside};
pub use meet_gate::MeetGate;
