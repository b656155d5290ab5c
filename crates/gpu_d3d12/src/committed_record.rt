//! What is kept of a committed resource, and what is read of a list of such records.

ghost use Rattle.std.specs.Prelude.{◌≡◌, ◌<◌, ◌^◌};
ghost use Rattle.gpu_d3d12.specs.Committed.{total_size, statistics_of, place_of};

use crate::CommittedAllocationStatistics;
use gpu_device::d3d12::ID3D12Resource;

/// A committed resource that wasn't given back.
#[derive(Clone, Copy, Debug, PartialEq, Eq)]
pub struct CommittedRecord {
    /// The device's number of it.
    pub resource: ID3D12Resource,
    /// Its size in bytes, as the device told it when it was asked for.
    pub size: u64,
}

/// The sum of the records' sizes, in bytes.
pub fn total_size(records: &[CommittedRecord]) -> u64
    requires { total_size records.now < 2 ^ 64 }
    ensures { result ≡ total_size records.now }
{
    let mut sum = 0;
    for record in records {
        sum += record.size;
    }
    sum
}

/// How many records there are, and their sizes' sum.
pub fn statistics_of(records: &[CommittedRecord]) -> CommittedAllocationStatistics
    requires { total_size records.now < 2 ^ 64 }
    ensures { result ≡ statistics_of records.now }
{
    CommittedAllocationStatistics {
        num_allocations: records.len(),
        total_size: total_size(records),
    }
}

/// Where a record of this number and size stands first.
pub fn place_of(records: &[CommittedRecord], made: CommittedRecord) -> Option<usize>
    ensures { result ≡ place_of records.now made }
{
    records.iter().position(|other| *other == made)
}
