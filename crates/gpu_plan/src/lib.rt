//! Offsets for transient resources in one heap: those that are never alive in one pass may have the same bytes. It holds no memory itself.
#![tactic(auto)]

mod best;
mod by_kind;
mod error;
mod in_order;
pub mod laws;
mod memory;
mod order;
mod order_plan;
mod passes;
mod place;
mod resource;
mod reuse;
mod sets;
mod span;

pub use best::{HeapPlan, plan};
pub use error::PlanError;
pub use in_order::plan_in_order;
pub use memory::{Memory, memory_for};
pub use order::Order;
pub use place::least_offset;
pub use resource::{Kind, Placed, Resource, are_valid};
pub use reuse::{reused_by, reuses};
pub use sets::{MemoryNeeds, sets_of};
