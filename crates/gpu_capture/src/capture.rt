//! A capture: the lines of a trace, those of the device apart from those of calls.

ghost use Rattle.std.specs.Prelude.{◌≡◌, ◌+◌, ◌<◌, ◌≤◌, ◌^◌, ◌↔◌, ◌++◌, Some, IsTrue, length, slice_get, slice_set};
ghost use Rattle.gpu_capture.specs.CaptureState.{end_room, longest_trace};
ghost use Rattle.gpu_capture.specs.Keeps.{Keeps, Stops, blank, with_call, with_lines};

mod trace;

use crate::room::append_both;
use std::alloc::Global;
use std::marker::Model;
pub use trace::Trace;

/// A trace has no more bytes.
const LONGEST_TRACE: usize = 1048576;

/// Room for `new` and for what ends a trace.
const END_ROOM: usize = 160;

/// How far a capture goes.
#[derive(Clone, Copy, Debug, PartialEq, Eq)]
pub enum CaptureEnd {
    /// It has each call.
    Whole,
    /// It ends where a trace had no room for the next call.
    TooLong,
    /// It ends where the host refused memory for the next call.
    HostOutOfMemory,
}

/// The calls of an allocator and the questions that its driver refused, as a trace.
#[derive(Drop)]
pub struct Capture {
    device: Vec<u8>,
    calls: Vec<u8>,
    end: CaptureEnd,
    questions: u64,
    budgets: [Option<u64>; 32],
}

impl Model for Capture {
    ghost use Rattle.gpu_capture.specs.CaptureState.{CaptureState, IsCapture};

    ghost Value = { CaptureState };

    ghost view = { λ c. record {
      device = c.device.items;
      calls = c.calls.items;
      end = c.end;
      questions = c.questions;
      budgets = c.budgets;
    } };

    ghost invariant = { λ c. IsCapture (record {
      device = c.device.items;
      calls = c.calls.items;
      end = c.end;
      questions = c.questions;
      budgets = c.budgets;
    }) };
}

impl Capture {
    /// A capture without a line.
    pub(crate) fn blank(alloc: Global) -> Capture
        ensures { result ≡ blank }
    {
        Capture {
            device: Vec::new(alloc),
            calls: Vec::new(alloc),
            end: CaptureEnd::Whole,
            questions: 0,
            budgets: [None; 32],
        }
    }

    /// How many questions its calls asked.
    pub(crate) fn questions(&self) -> u64
        ensures { result ≡ self.now.questions }
    {
        self.questions
    }

    /// The memory type's budget by its lines.
    pub(crate) fn budget(&self, memory_type: usize) -> Option<u64>
        requires { memory_type < 32 }
        ensures { slice_get self.now.budgets memory_type ≡ Some result }
    {
        self.budgets[memory_type]
    }

    /// Whether a trace has room for so many bytes more.
    fn has_room(&self, device: usize, calls: usize) -> bool
        ensures { IsTrue result ↔ (length self.now.device + device + (length self.now.calls + calls)
            + end_room ≤ longest_trace) }
    {
        let room = LONGEST_TRACE - END_ROOM - self.device.len() - self.calls.len();
        device <= room && calls <= room - device
    }

    /// Adds the lines of one call, all or none, and the questions that it asked.
    pub(crate) fn keep(&mut self, device: &[u8], calls: &[u8], questions: u64)
        requires { self.old.questions + questions < 2 ^ 64 }
        ensures { Keeps self.old (with_lines self.old device.now calls.now questions) self.new }
    {
        if self.end != CaptureEnd::Whole {
            return;
        }
        if !self.has_room(device.len(), calls.len()) {
            self.end = CaptureEnd::TooLong;
            return;
        }
        match append_both(&mut self.device, &mut self.calls, device, calls) {
            Ok(()) => self.questions += questions,
            Err(_) => self.end = CaptureEnd::HostOutOfMemory,
        }
    }

    /// Adds the line of a call that asked nothing.
    pub(crate) fn keep_call(&mut self, line: &str)
        ensures { Keeps self.old (with_call self.old line.now) self.new }
    {
        if self.end == CaptureEnd::Whole {
            self.keep(&[], line.as_bytes(), 0);
        }
    }

    /// Adds the line of a memory type's budget.
    pub(crate) fn keep_budget(&mut self, line: &str, memory_type: usize, budget: Option<u64>)
        requires { memory_type < 32 }
        ensures { Keeps self.old (record (with_call self.old line.now)
            { budgets = slice_set self.old.budgets memory_type budget }) self.new }
    {
        self.keep_call(line);
        if self.end == CaptureEnd::Whole {
            self.budgets[memory_type] = budget;
        }
    }

    /// Ends it before a call.
    pub(crate) fn stop(&mut self, end: CaptureEnd)
        ensures { Stops self.old end self.new }
    {
        if self.end == CaptureEnd::Whole {
            self.end = end;
        }
    }
}
