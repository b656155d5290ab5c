//! A ring of a size: staging memory that is given out from one end and freed a frame at a time. It holds no memory itself: offsets in a
//! buffer, a heap or a file, and nothing of a piece.
#![tactic(auto)]

pub mod laws;
mod place;
mod ring;

pub use ring::{Frame, FrameStatistics, Ring, RingStatistics, Stretch};
