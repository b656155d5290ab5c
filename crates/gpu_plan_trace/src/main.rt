// Runs a plan trace: standard input to standard output. docs/TRACE.md has the format.
#![tactic(auto)]

use gpu_plan_session::run_plan_trace;
use log::sink::Discard;
use std::io::BufWriter;
use std::process::ExitCode;
use std::{env, io};

/// Whether the program was given arguments, of which it takes none.
fn has_arguments(rt: &HostRuntime) -> io::Result<bool> {
    Ok(env::args(rt)?.nth(1).is_some())
}

fn main(rt: HostRuntime) -> ExitCode {
    match has_arguments(&rt) {
        Ok(false) => {}
        Ok(true) => {
            let _ = eprintln!(rt;
                "gpu_plan_trace: takes no arguments, and reads a trace from standard input"
            );
            return ExitCode::from(1);
        }
        Err(_) => return ExitCode::from(1),
    }
    let Ok(mut writer) = BufWriter::new(rt.alloc(), rt.stdout()) else {
        return ExitCode::from(1);
    };
    let mut reader = rt.stdin();
    ExitCode::from(run_plan_trace(&Discard, rt.alloc(), &mut reader, &mut writer))
}
