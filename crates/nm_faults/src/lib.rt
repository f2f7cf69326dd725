//! Values: how often a device has failed, and which calls of one in memory are to fail.
#![tactic(auto)]

mod calls;
mod faults;

pub use calls::Calls;
pub use faults::Faults;
