// The gaps of a block in the order of length and start.
#![tactic(auto)]

mod class;
mod class_set;
mod classed;
mod forest;
mod index;
mod key;
mod order;
mod packed;
mod packed_record;
mod root;
mod scan;
mod tagged_slot;
mod thread;
mod thread_place;
mod tree;

pub use index::{Gap, GapIndex};
pub use scan::Scan;
