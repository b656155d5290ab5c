//! A log that counts, and takes no memory.

use log::kv::Source;
use log::span::Spans;
use log::{Log, Metadata, Record};
use std::cell::Cell;
use std::fmt::{self, Display, Write};

/// How many messages came, and how many bytes they had.
#[derive(Drop)]
pub struct Counting {
    messages: Cell<usize>,
    bytes: Cell<usize>,
}

impl Counting {
    pub fn new() -> Self {
        Counting {
            messages: Cell::new(0),
            bytes: Cell::new(0),
        }
    }

    /// The messages, and their bytes.
    pub fn counts(&self) -> (usize, usize) {
        (self.messages.get(), self.bytes.get())
    }
}

/// How many bytes were written.
#[derive(Drop)]
struct Length(usize);

impl Write for Length {
    fn write_str(&mut self, s: &str) -> fmt::Result {
        self.0 = self.0.saturating_add(s.len());
        Ok(())
    }
}

impl Log for Counting {
    fn enabled(&self, _metadata: &Metadata<'_>) -> bool {
        true
    }

    fn log<D: Display, K: Source, S: Spans>(&self, record: &Record<'_, D, K, S>) {
        let mut length = Length(0);
        if length.write(record.args()).is_ok() {
            self.messages.set(self.messages.get().saturating_add(1));
            self.bytes.set(self.bytes.get().saturating_add(length.0));
        }
    }

    fn flush(&self) {}

    fn target(&self) -> &str {
        ""
    }
}
