// What a search of a block costs: counts that contracts alone see.
#![tactic(auto)]

mod cost;

pub use cost::{BeginsCount, Cost};
