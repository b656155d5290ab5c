//! Draws what a trace leaves, or how it came there: standard input to standard output. docs/REPORT.md says what it takes and
//! writes.
#![tactic(auto)]

mod draw;
mod draw_plan;
mod drawable;
mod drawn;
mod follow;
mod whole_trace;

use drawn::Drawn;
use log::sink::Discard;
use std::io::BufWriter;
use std::process::ExitCode;
use std::{env, io};
use whole_trace::{DrawError, Wanted, draw_trace};

/// What is asked for: a picture of the blocks or the plan, JSON of the blocks by the one argument `json`, a picture of what was held over time by
/// `over-time`; `None` of other arguments.
fn asked_for(rt: &HostRuntime) -> io::Result<Option<Wanted>> {
    let mut arguments = env::args(rt)?;
    let _program = arguments.next();
    let wanted = match arguments.next() {
        None => Some(Wanted::Picture),
        Some(word) if word.as_str() == "json" => Some(Wanted::Json),
        Some(word) if word.as_str() == "over-time" => Some(Wanted::OverTime),
        Some(_) => None,
    };
    if arguments.next().is_some() {
        return Ok(None);
    }
    Ok(wanted)
}

/// Draws standard input to standard output, through a buffer.
fn draw_input(rt: &HostRuntime, wanted: Wanted) -> Result<Drawn, DrawError> {
    let mut reader = rt.stdin();
    match BufWriter::new(rt.alloc(), rt.stdout()) {
        Ok(mut writer) => draw_trace(&Discard, rt.alloc(), wanted, &mut reader, &mut writer),
        Err(error) => Err(DrawError::Write(error)),
    }
}

/// The exit status, once it is told what is wrong.
fn status(rt: &HostRuntime, drawn: Result<Drawn, DrawError>) -> ExitCode {
    match drawn {
        Ok(Drawn::Whole) => ExitCode::SUCCESS,
        Ok(Drawn::Bad(number)) => {
            let _ = eprintln!(rt; "gpu_picture: bad line {number}");
            ExitCode::from(2)
        }
        Ok(Drawn::TooLarge) => {
            let _ = eprintln!(rt; "gpu_picture: no heap of 64 bits holds the plan's resources");
            ExitCode::from(1)
        }
        Err(DrawError::Trace(error)) => {
            let _ = eprintln!(rt; "gpu_picture: {error}");
            ExitCode::from(1)
        }
        Err(DrawError::Write(_)) => ExitCode::from(1),
    }
}

fn main(rt: HostRuntime) -> ExitCode {
    match asked_for(&rt) {
        Ok(Some(wanted)) => {
            let drawn = draw_input(&rt, wanted);
            status(&rt, drawn)
        }
        Ok(None) | Err(_) => {
            let _ = eprintln!(rt;
                "gpu_picture: takes no argument but json or over-time, and a trace from standard input"
            );
            ExitCode::from(1)
        }
    }
}
