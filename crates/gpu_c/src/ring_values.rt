//! What callers get of rings.

/// What is counted of a frame.
#[repr(C)]
#[derive(Drop)]
pub struct FrameCounts {
    /// How many pieces there are in it.
    pub pieces: u64,
    /// Their bytes, those of their padding, and those at the ring's end that they skipped.
    pub bytes: u64,
}

/// Where bytes of a ring lie that go on from one another, round its end.
#[repr(C)]
#[derive(Drop)]
pub struct RingStretch {
    /// Where they begin, an offset in the ring.
    pub offset: u64,
    /// How many there are from there on, up to the ring's end at most.
    pub size: u64,
    /// How many more there are, from the ring's start on.
    pub rest: u64,
}

/// What is counted of a ring.
#[repr(C)]
#[derive(Drop)]
pub struct RingCounts {
    /// The ring's size in bytes.
    pub size: u64,
    /// The bytes of all frames in flight and of the open one.
    pub taken: u64,
    /// How many frames are in flight.
    pub frames: usize,
    /// The number of the oldest of these, from which on they are numbered; where there is none, that of the open frame.
    pub oldest: u64,
    /// What is counted of the open frame.
    pub current: FrameCounts,
}
