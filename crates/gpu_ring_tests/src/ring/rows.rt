//! Worked rows: where pieces go in a ring of 100 bytes, and which are freed with a frame.

use gpu_ring::{Frame, FrameStatistics, Ring, Stretch};
use std::process::Abort;
use std::test::Fail;

/// Looks that each step of a test went as it should; a failed one is told by its place.
fn check(rt: &impl Abort, steps: &[bool]) {
    for (place, step) in steps.iter().enumerate() {
        assert!(rt; *step, "step {place}");
    }
}

/// Whether a ring of 100 bytes holds this.
fn holds(ring: &Ring, taken: u64, frames: usize) -> bool {
    let told = ring.statistics();
    told.size == 100 && told.taken == taken && told.frames == frames
}

#[test]
fn pieces_go_to_the_next_place_in_one_part_of_the_ring(rt: HostRuntime) -> Result<(), Fail> {
    let Ok(mut ring) = Ring::new(rt.alloc(), 100, 2) else {
        return Err(Fail::new("there is no memory for a ring"));
    };
    let steps = [
        holds(&ring, 0, 0),
        ring.allocate(40, 1) == Some(0),
        // 8 bytes of padding
        ring.allocate(30, 16) == Some(48),
        // 22 bytes are left, of which none is at the start
        ring.allocate(30, 1).is_none(),
        holds(&ring, 78, 0),
        ring.end_frame() == Some(Frame { number: 0 }),
        ring.allocate(22, 1) == Some(78),
        ring.allocate(1, 1).is_none(),
        ring.end_frame() == Some(Frame { number: 1 }),
        holds(&ring, 100, 2),
        // two frames are in flight, and there is room for no third
        ring.end_frame().is_none(),
        ring.retire(Frame { number: 0 }),
        holds(&ring, 22, 1),
        ring.allocate(40, 32) == Some(0),
        // 64 is the next multiple of 32, and the taken bytes begin at 78
        ring.allocate(15, 32).is_none(),
        ring.allocate(14, 32) == Some(64),
        holds(&ring, 100, 1),
    ];
    check(&rt, &steps);
    Ok(())
}

#[test]
fn frames_are_freed_with_the_older_ones(rt: HostRuntime) -> Result<(), Fail> {
    let Ok(mut ring) = Ring::new(rt.alloc(), 100, 3) else {
        return Err(Fail::new("there is no memory for a ring"));
    };
    let steps = [
        // a ring in which nothing is taken is one part
        ring.allocate(101, 1).is_none(),
        ring.allocate(60, 1) == Some(0),
        ring.end_frame() == Some(Frame { number: 0 }),
        ring.allocate(10, 1) == Some(60),
        ring.end_frame() == Some(Frame { number: 1 }),
        // a frame of no pieces
        ring.end_frame() == Some(Frame { number: 2 }),
        // 30 bytes are left at the end: a piece of 35 bytes skips none of them while the start is taken
        ring.allocate(35, 1).is_none(),
        !ring.retire(Frame { number: 3 }),
        holds(&ring, 70, 3),
        ring.retire(Frame { number: 1 }),
        holds(&ring, 0, 1),
        !ring.retire(Frame { number: 0 }),
        ring.allocate(100, 64) == Some(0),
        ring.retire(Frame { number: 2 }),
        holds(&ring, 100, 0),
    ];
    check(&rt, &steps);
    Ok(())
}

/// Whether a frame is told with so many pieces and bytes.
fn tells(told: Option<FrameStatistics>, pieces: u64, bytes: u64) -> bool {
    told == Some(FrameStatistics { pieces, bytes })
}

#[test]
fn each_frame_tells_its_pieces(rt: HostRuntime) -> Result<(), Fail> {
    let Ok(mut ring) = Ring::new(rt.alloc(), 100, 2) else {
        return Err(Fail::new("there is no memory for a ring"));
    };
    let steps = [
        ring.frame_statistics(Frame { number: 0 }).is_none(),
        ring.allocate(30, 1) == Some(0),
        ring.allocate(30, 16) == Some(32),
        // 30 bytes, 2 of padding, 30
        tells(Some(ring.statistics().current), 2, 62),
        ring.end_frame() == Some(Frame { number: 0 }),
        ring.end_frame() == Some(Frame { number: 1 }),
        tells(ring.frame_statistics(Frame { number: 0 }), 2, 62),
        tells(ring.frame_statistics(Frame { number: 1 }), 0, 0),
        ring.frame_statistics(Frame { number: 2 }).is_none(),
        ring.statistics().oldest == 0,
        ring.retire(Frame { number: 0 }),
        ring.statistics().oldest == 1,
        ring.frame_statistics(Frame { number: 0 }).is_none(),
    ];
    check(&rt, &steps);
    Ok(())
}

#[test]
fn bytes_skipped_at_the_end_go_with_their_frame(rt: HostRuntime) -> Result<(), Fail> {
    let Ok(mut ring) = Ring::new(rt.alloc(), 100, 2) else {
        return Err(Fail::new("there is no memory for a ring"));
    };
    let steps = [
        ring.allocate(70, 1) == Some(0),
        ring.end_frame() == Some(Frame { number: 0 }),
        ring.allocate(10, 1) == Some(70),
        ring.end_frame() == Some(Frame { number: 1 }),
        ring.retire(Frame { number: 0 }),
        // the 20 bytes at the end are too few: they are taken with the piece
        ring.allocate(30, 1) == Some(0),
        holds(&ring, 60, 1),
        ring.current_stretch()
            == Stretch {
                offset: 80,
                size: 20,
                rest: 30,
            },
        ring.end_frame() == Some(Frame { number: 2 }),
        ring.retire(Frame { number: 1 }),
        holds(&ring, 50, 1),
        ring.retire(Frame { number: 2 }),
        holds(&ring, 0, 0),
    ];
    check(&rt, &steps);
    Ok(())
}
