// The chunks of a block, pieces and gaps: held by number, each linked to the ones beside it.
#![tactic(auto)]

mod chain;
mod chunk;
mod label;
mod name;
mod walk;

pub use chain::{Chain, Neighbour, Neighbours};
pub use chunk::{Chunk, ChunkView, is_free};
pub use label::{Label, NewLabel};
pub use name::{Name, NewName};
pub use walk::Walk;
