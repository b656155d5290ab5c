//! What a call leaves of a capture.

ghost use Rattle.std.specs.Prelude.{◌≡◌, [], ◌∷◌, length, codes, IfOk, string_bytes};
ghost use Rattle.gpu_capture.specs.Answers.{answer_lines};
ghost use Rattle.gpu_capture.specs.D3D12.{release_words};
ghost use Rattle.gpu_capture.specs.Keeps.{Keeps, Stops, with_call, with_lines};
ghost use Rattle.gpu_capture.specs.Line.{line_of, name_word};
ghost use Rattle.gpu_capture.specs.Requests.{alloc_line, move_line, committed_line};
ghost use Rattle.gpu_capture.specs.Words.{free_words, rename_words};

use crate::answer::{Answer, answer_lines};
use crate::capture::{Capture, CaptureEnd};
use crate::request::{D3D12Request, Request, alloc_line, committed_line, move_line};
use crate::words::end_with_name;
use std::alloc::{AllocError, Global};

fn free_line(alloc: Global, number: u64) -> Result<String, AllocError>
    ensures { IfOk result (λ l. string_bytes l ≡ line_of (free_words number)) }
{
    format!(in alloc; "free {number}\n")
}

fn release_line(alloc: Global, number: u64) -> Result<String, AllocError>
    ensures { IfOk result (λ l. string_bytes l ≡ line_of (release_words number)) }
{
    format!(in alloc; "release {number}\n")
}

fn rename_line(alloc: Global, number: u64, name: &[u8]) -> Result<String, AllocError>
    ensures { IfOk result (λ l. string_bytes l
        ≡ line_of (rename_words number (name_word name.now))) }
{
    let mut line = format!(in alloc; "rename {number} ")?;
    end_with_name(&mut line, name)?;
    Ok(line)
}

impl Capture {
    /// Adds the line of a call whose questions the driver answered so.
    fn keep_answered(&mut self, alloc: Global, line: &str, answers: &[Answer])
        ensures { Keeps self.old (with_lines self.old
            (answer_lines self.old.questions answers.now) line.now (length answers.now)) self.new }
    {
        let asked = answers.len() as u64;
        let before = self.questions();
        if before > u64::MAX - asked {
            self.stop(CaptureEnd::TooLong);
            return;
        }
        match answer_lines(alloc, before, answers) {
            Ok(lines) => self.keep(lines.as_bytes(), line.as_bytes(), asked),
            Err(_) => self.stop(CaptureEnd::HostOutOfMemory),
        }
    }

    /// An allocation was asked for under this number, and the driver answered its questions so.
    pub fn allocated(
        &mut self,
        alloc: Global,
        number: u64,
        request: &Request<'_>,
        answers: &[Answer],
    )
        ensures { Keeps self.old (with_lines self.old
            (answer_lines self.old.questions answers.now) (alloc_line number request.now)
            (length answers.now)) self.new }
    {
        match alloc_line(alloc, number, request) {
            Ok(line) => self.keep_answered(alloc, line.as_str(), answers),
            Err(_) => self.stop(CaptureEnd::HostOutOfMemory),
        }
    }

    /// A second place was asked for of the allocation `from`, under the number `to`.
    pub fn moved(&mut self, alloc: Global, from: u64, to: u64, request: &Request<'_>)
        ensures { Keeps self.old (with_call self.old (move_line from to request.now)) self.new }
    {
        match move_line(alloc, from, to, request) {
            Ok(line) => self.keep_call(line.as_str()),
            Err(_) => self.stop(CaptureEnd::HostOutOfMemory),
        }
    }

    /// A committed resource was asked for under this number, and the driver answered its question so. Its line makes a buffer of whole units of
    /// 65,536 bytes, where 64 bits hold them.
    pub fn committed(
        &mut self,
        alloc: Global,
        number: u64,
        request: &D3D12Request<'_>,
        answers: &[Answer],
    )
        ensures { Keeps self.old (with_lines self.old
            (answer_lines self.old.questions answers.now) (committed_line number request.now)
            (length answers.now)) self.new }
    {
        match committed_line(alloc, number, request) {
            Ok(line) => self.keep_answered(alloc, line.as_str(), answers),
            Err(_) => self.stop(CaptureEnd::HostOutOfMemory),
        }
    }

    /// An allocation is freed.
    pub fn freed(&mut self, alloc: Global, number: u64)
        ensures { Keeps self.old (with_call self.old (line_of (free_words number))) self.new }
    {
        match free_line(alloc, number) {
            Ok(line) => self.keep_call(line.as_str()),
            Err(_) => self.stop(CaptureEnd::HostOutOfMemory),
        }
    }

    /// A committed resource is released; in DirectX 12 alone.
    pub fn released(&mut self, alloc: Global, number: u64)
        ensures { Keeps self.old (with_call self.old (line_of (release_words number))) self.new }
    {
        match release_line(alloc, number) {
            Ok(line) => self.keep_call(line.as_str()),
            Err(_) => self.stop(CaptureEnd::HostOutOfMemory),
        }
    }

    /// An allocation is renamed; not in Metal, whose traces have no such line.
    pub fn renamed(&mut self, alloc: Global, number: u64, name: &[u8])
        ensures { Keeps self.old (with_call self.old
            (line_of (rename_words number (name_word name.now)))) self.new }
    {
        match rename_line(alloc, number, name) {
            Ok(line) => self.keep_call(line.as_str()),
            Err(_) => self.stop(CaptureEnd::HostOutOfMemory),
        }
    }

    /// The residency set is committed; in Metal alone.
    pub fn set_committed(&mut self)
        ensures { Keeps self.old (with_call self.old (line_of (codes "commit" ∷ []))) self.new }
    {
        self.keep_call("commit\n");
    }

    /// The host refused memory for what a call says: the capture ends before that call.
    pub fn lacks_memory(&mut self)
        ensures { Stops self.old CaptureEnd.HostOutOfMemory self.new }
    {
        self.stop(CaptureEnd::HostOutOfMemory);
    }
}
