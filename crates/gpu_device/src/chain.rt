//! A list of snapshots, of which none has bytes.

use std::snapshot::Snapshot;

/// Entries, newest first; each knows those before it.
#[derive(Drop)]
pub enum Chain<E> {
    /// No entry.
    Empty,
    /// An entry, and those before it.
    Then(Snapshot<E>, Snapshot<Chain<E>>),
}
