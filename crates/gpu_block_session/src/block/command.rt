//! What a session of one block is asked for.

ghost use Rattle.std.specs.Prelude.{◌≡◌, ◌≢◌};
ghost use Rattle.gpu_values.specs.declared.allocation_type.AllocationType.{AllocationType};
ghost use Rattle.gpu_block_session.specs.BlockCommand.{is_host, type_of_kind};

use gpu_values::AllocationType;

/// Whose block sizes count: those of the device's own memory, or of memory that the host can see.
#[derive(Clone, Copy, Debug, PartialEq, Eq)]
pub enum Side {
    Device,
    Host,
}

/// How a piece is laid out.
#[derive(Clone, Copy, Debug, PartialEq, Eq)]
pub enum Kind {
    Linear,
    NonLinear,
}

/// A command to a session of one block. Sizes and alignments are bytes; `key` is the caller's own number of a piece.
#[derive(Debug, Drop)]
pub enum Command {
    Block {
        side: Side,
        min: u64,
        max: u64,
        count: u64,
        granularity: u64,
    },
    Allocate {
        key: u64,
        size: u64,
        alignment: u64,
        kind: Kind,
        name: String,
    },
    Free {
        key: u64,
    },
    Report,
}

impl Side {
    /// Whether it is the side that the host can see.
    pub fn is_host(self) -> bool
        ensures { result ≡ is_host self }
    {
        match self {
            Side::Device => false,
            Side::Host => true,
        }
    }
}

impl Kind {
    /// The kind as the allocator names it.
    pub fn allocation_type(self) -> AllocationType
        ensures same { result ≡ type_of_kind self }
        ensures piece { result ≢ AllocationType.Free }
    {
        match self {
            Kind::Linear => AllocationType::Linear,
            Kind::NonLinear => AllocationType::NonLinear,
        }
    }
}
