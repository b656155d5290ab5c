//! What all simulated devices share: the script of refusals, the counts of questions and refusals, and the numbers under
//! which things are held.
#![tactic(auto)]

mod numbers;
mod script;
mod sizes;

pub use gpu_device::Refusal;
pub use numbers::Numbers;
pub use script::Script;
pub use sizes::rounded_up;
