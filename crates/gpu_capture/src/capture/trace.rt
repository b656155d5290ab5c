//! The trace that a capture is.

ghost use Rattle.std.specs.Prelude.{◌≡◌, ◌≤◌, length};
ghost use Rattle.gpu_capture.specs.CaptureState.{longest_trace, new_line, last_line, text};

use crate::capture::{Capture, CaptureEnd};

/// A trace, in four parts.
#[derive(Clone, Copy, Debug)]
pub struct Trace<'a> {
    /// The lines of the device.
    pub device: &'a [u8],
    /// `new`, where there is a device.
    pub new: &'a [u8],
    /// The lines of calls.
    pub calls: &'a [u8],
    /// What ends it.
    pub end: &'a [u8],
}

/// What ends a trace.
fn last_line(end: CaptureEnd, is_destroyed: bool) -> &'static str
    ensures text { result.now ≡ last_line end is_destroyed }
    ensures short { length result.now ≤ 100 }
{
    match end {
        CaptureEnd::Whole if is_destroyed => "destroy\n",
        CaptureEnd::Whole => "",
        CaptureEnd::TooLong => {
            "# the capture ends here: the next call would make the trace too long\n"
        }
        CaptureEnd::HostOutOfMemory => {
            "# the capture ends here: no host memory for the next call\n"
        }
    }
}

impl Capture {
    /// How far it goes.
    pub fn end(&self) -> CaptureEnd
        ensures { result ≡ self.now.end }
    {
        self.end
    }

    /// The trace. The allocator may be destroyed.
    pub fn trace(&self, is_destroyed: bool) -> Trace<'_>
        ensures device { result.device.now ≡ self.now.device }
        ensures new { result.new.now ≡ new_line self.now.device }
        ensures calls { result.calls.now ≡ self.now.calls }
        ensures end { result.end.now ≡ last_line self.now.end is_destroyed }
        ensures short { length (text self.now is_destroyed) ≤ longest_trace }
    {
        let new = if self.device.is_empty() { "" } else { "new\n" };
        Trace {
            device: &self.device,
            new: new.as_bytes(),
            calls: &self.calls,
            end: last_line(self.end(), is_destroyed).as_bytes(),
        }
    }
}
