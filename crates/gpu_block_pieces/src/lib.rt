// A block that is cut into pieces: how a place is found for one, and how it is taken, given back, renamed and read. What is looked at
// for that is counted where it is looked at (`compare_near` of gpu_block_gaps, `node_at` of gpu_block_chunks): that each look there is
// counted is seen by reading; no other module can look, and none but `queries` can begin a counter.
#![tactic(auto)]

mod chunks;
mod free_list;
mod gaps;
pub mod laws;
mod leaks;
mod pieces;
mod place;
mod queries;
mod rows;
mod search;
mod update;

pub use free_list::FreeListAllocator;
pub use gaps::Gaps;
pub use leaks::{Leak, Leaks, texts_of};
pub use pieces::{BlockStatistics, LivePiece, Pieces, count_pieces};
pub use rows::rows_of;
