//! Tests of what is printed of a trace that was not run to its end.

use crate::check;
use gpu_session::TraceError;
use std::alloc::{AllocError, Global};
use std::io::{Error, ErrorKind};

/// Whether the error prints this text.
fn prints(alloc: Global, error: TraceError, want: &str) -> bool {
    match error.to_string(alloc) {
        Ok(text) => text.as_str() == want,
        Err(_) => false,
    }
}

#[test]
fn each_prints_what_failed(rt: HostRuntime) {
    let read = TraceError::Read(Error::from(ErrorKind::PermissionDenied));
    let write = TraceError::Write(Error::from(ErrorKind::BrokenPipe));
    let memory = TraceError::Memory(AllocError);
    let alloc = rt.alloc();
    let steps = [
        prints(
            alloc,
            read,
            "the trace could not be read: permission denied",
        ),
        prints(
            alloc,
            write,
            "the replies could not be written: broken pipe",
        ),
        prints(alloc, memory, "memory for the trace was refused"),
    ];
    check(&rt, &steps);
}
