//! A simulated Metal device, proved to keep its trait's laws.
#![tactic(auto)]

mod objects;
mod residency_set;
mod scripted_journal;
mod sim_metal;

pub use sim_metal::SimMetal;
