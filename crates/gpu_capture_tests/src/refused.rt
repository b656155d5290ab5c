//! A capture while the host refuses one request for memory: with ample memory the test passes; where the request was refused it fails with
//! a text of its own (`tools/check_refused`).

use gpu_capture::{Answer, BlockSizes, Capture, CaptureEnd, MetalRequest, Request};
use gpu_values::MemoryLocation;
use std::test::Fail;

/// What a run ends with in which one request was refused.
const TOLD: &str = "one call was refused, and nothing was lost";

const CALLS: &str = "budget 2 7\nalloc 1 2 4 Unknown a\nrename 1 b\nrelease 2\nfree 1\n";

#[test]
fn it_ends_before_the_call_that_lacked_memory(rt: HostRuntime) -> Result<(), Fail> {
    let alloc = rt.alloc();
    let sizes = BlockSizes {
        device: 1,
        host: 1,
        max_device: 1,
        max_host: 1,
    };
    let mut capture = Capture::of_metal(alloc, false, sizes);
    let request = Request::Metal(MetalRequest {
        size: 2,
        alignment: 4,
        location: MemoryLocation::Unknown,
        name: "a".as_bytes(),
    });
    capture.bounded(alloc, 2, Some(7));
    capture.allocated(alloc, 1, &request, &[Answer::Granted]);
    capture.renamed(alloc, 1, "b".as_bytes());
    capture.released(alloc, 2);
    capture.freed(alloc, 1);
    let calls = capture.trace(false).calls;
    let whole = CALLS.as_bytes().starts_with(calls);
    let ends = calls.is_empty() || calls.last() == Some(&b'\n');
    match capture.end() {
        CaptureEnd::Whole if calls == CALLS.as_bytes() => Ok(()),
        CaptureEnd::HostOutOfMemory if whole && ends && calls.len() < CALLS.len() => {
            Err(Fail::new(TOLD))
        }
        _ => Err(Fail::new("a call was lost")),
    }
}
