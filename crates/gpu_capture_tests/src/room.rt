//! A capture that has no more room.

use gpu_capture::{BlockSizes, Capture, CaptureEnd};
use std::test::Fail;

#[test]
fn it_ends_at_a_whole_line_where_a_trace_has_no_more_room(rt: HostRuntime) -> Result<(), Fail> {
    let alloc = rt.alloc();
    let sizes = BlockSizes {
        device: 1,
        host: 1,
        max_device: 1,
        max_host: 1,
    };
    let mut capture = Capture::of_metal(alloc, false, sizes);
    let name = [b'n'; 65];
    // each line is `rename 7 ` and 64 bytes of the name, with its end 74 bytes
    for _ in 0..20000 {
        capture.renamed(alloc, 7, &name);
    }
    let trace = capture.trace(true);
    let device = "metal\nresidency no\nsizes 1 1 1 1\n".len();
    let room = 1048576 - 160 - device;
    if capture.end() != CaptureEnd::TooLong || trace.calls.len() != room / 74 * 74 {
        return Err(Fail::new("it ended elsewhere"));
    }
    if trace.end.first() != Some(&b'#') || trace.calls.last() != Some(&b'\n') {
        return Err(Fail::new("it ends without a remark"));
    }
    Ok(())
}

#[test]
fn it_ends_before_a_call_that_lacked_memory_elsewhere(rt: HostRuntime) -> Result<(), Fail> {
    let alloc = rt.alloc();
    let sizes = BlockSizes {
        device: 1,
        host: 1,
        max_device: 1,
        max_host: 1,
    };
    let mut capture = Capture::of_metal(alloc, false, sizes);
    capture.freed(alloc, 1);
    capture.lacks_memory();
    capture.freed(alloc, 2);
    let trace = capture.trace(true);
    if trace.calls != "free 1\n".as_bytes() {
        return Err(Fail::new("it has other calls"));
    }
    match capture.end() {
        CaptureEnd::HostOutOfMemory => Ok(()),
        _ => Err(Fail::new("it goes on")),
    }
}
