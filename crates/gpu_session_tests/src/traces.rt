//! Whole traces with readers and writers that fail. What traces are answered is in traces/.

use crate::check;
use gpu_session::run_trace;
use log::sink::Discard;
use std::alloc::Global;
use std::io;
use std::io::{ErrorKind, Read, Write};

/// Gives a byte a read, and fails after so many.
#[derive(Drop)]
struct Breaking<'a> {
    bytes: &'a [u8],
    left: usize,
}

impl Read for Breaking<'_> {
    fn read(&mut self, buf: &mut [u8]) -> io::Result<usize> {
        if self.left == 0 {
            return Err(io::Error::from(ErrorKind::BrokenPipe));
        }
        let n = self.left.min(1).min(buf.len()).min(self.bytes.len());
        let (front, rest) = self.bytes.split_at(n);
        buf[..n].copy_from_slice(front);
        self.bytes = rest;
        self.left -= n;
        Ok(n)
    }
}

/// Holds so many bytes, and fails at the next one, or at a flush.
#[derive(Drop)]
struct Full {
    held: Vec<u8>,
    left: usize,
    flushes: bool,
}

impl Write for Full {
    fn write(&mut self, buf: &[u8]) -> io::Result<usize> {
        let n = self.left.min(buf.len());
        if n == 0 && !buf.is_empty() {
            return Err(io::Error::from(ErrorKind::StorageFull));
        }
        self.held.extend_from_slice(&buf[..n])?;
        self.left -= n;
        Ok(n)
    }

    fn flush(&mut self) -> io::Result<()> {
        if self.flushes {
            Ok(())
        } else {
            Err(io::Error::from(ErrorKind::StorageFull))
        }
    }
}

const BEST_FIT: &str = "block host 4194304 4194304 0 1
take 1 100 1 linear a
take 2 10 1 linear b
take 3 50 1 linear c
take 4 10 1 linear d
give 1
give 3
take 5 40 1 linear e
";

const BEST_FIT_REPLIES: &str = "block 4194304
ok offset 0 chunk 2
ok offset 100 chunk 3
ok offset 110 chunk 4
ok offset 160 chunk 5
ok
ok
ok offset 110 chunk 6
";

const DAMAGED: &str = "block host 4194304 4194304 0 1\ntake 1 1 1 linear a\ngive 1\nx";

const DAMAGED_REPLIES: &str = "block 4194304\nok offset 0 chunk 2\nok\nbad line 4\n";

const BUFFER: &str = "heap 4096
type 6 0
new
alloc 1 8 1 1 CpuToGpu linear buffer:1 a
write 1 7 ff
read 1 7 1
report
leaks
destroy
";

const BUFFER_REPLIES: &str = "ok
ok type 0 slot 0 offset 0 size 8 chunk 1 dedicated true mapped true
ok
ff
piece a 0 8
block 8 0 1
total 8 capacity 8
leak detected: {
    memory type: 0
    memory block: 0
    dedicated allocation: {
        size: 0x8,
        name: a
    }
}
leaks 1
held 0
";

/// Whether the trace ends unanswered where its reader fails after so many bytes.
fn read_fails(alloc: Global, input: &str, left: usize) -> bool {
    let mut reader = Breaking {
        bytes: input.as_bytes(),
        left,
    };
    let mut out = Vec::new(alloc);
    run_trace(&Discard, alloc, &mut reader, &mut out) == 1 && out.is_empty()
}

/// The same, wherever it fails.
fn each_read_fails(alloc: Global, input: &str) -> bool {
    for left in 0..input.len() {
        if !read_fails(alloc, input, left) {
            return false;
        }
    }
    true
}

#[test]
fn a_failed_read_ends_the_trace_unanswered(rt: HostRuntime) {
    let steps = [
        each_read_fails(rt.alloc(), BEST_FIT),
        each_read_fails(rt.alloc(), DAMAGED),
        each_read_fails(rt.alloc(), BUFFER),
    ];
    check(&rt, &steps);
}

/// Whether the trace ends where its writer fails after so many bytes, which are those of its replies.
fn write_fails(alloc: Global, input: &str, output: &str, left: usize) -> bool {
    let mut reader = input.as_bytes();
    let mut out = Full {
        held: Vec::new(alloc),
        left,
        flushes: true,
    };
    run_trace(&Discard, alloc, &mut reader, &mut out) == 1
        && output.as_bytes().starts_with(out.held.as_slice())
}

/// The same, wherever it fails.
fn each_write_fails(alloc: Global, input: &str, output: &str) -> bool {
    for left in 0..output.len() {
        if !write_fails(alloc, input, output, left) {
            return false;
        }
    }
    true
}

#[test]
fn a_failed_write_ends_the_trace(rt: HostRuntime) {
    let steps = [
        each_write_fails(rt.alloc(), BEST_FIT, BEST_FIT_REPLIES),
        each_write_fails(rt.alloc(), DAMAGED, DAMAGED_REPLIES),
        each_write_fails(rt.alloc(), BUFFER, BUFFER_REPLIES),
    ];
    check(&rt, &steps);
}

/// Whether the trace fails where all is written, and the flush fails.
fn flush_fails(alloc: Global, input: &str) -> bool {
    let mut reader = input.as_bytes();
    let mut out = Full {
        held: Vec::new(alloc),
        left: usize::MAX,
        flushes: false,
    };
    run_trace(&Discard, alloc, &mut reader, &mut out) == 1
}

#[test]
fn a_failed_flush_is_a_failed_write(rt: HostRuntime) {
    let steps = [
        flush_fails(rt.alloc(), BEST_FIT),
        flush_fails(rt.alloc(), DAMAGED),
        flush_fails(rt.alloc(), BUFFER),
        flush_fails(rt.alloc(), ""),
    ];
    check(&rt, &steps);
}
