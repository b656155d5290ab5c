// A tour of the library as a program would use it: a part for each graphics API, over a simulated device.
#![tactic(auto)]

pub mod caller;
mod d3d12;
mod error;
mod metal;
mod vulkan;

use std::process::ExitCode;

/// One after another.
fn tours(rt: &HostRuntime) -> error::Result<()> {
    vulkan::tour(rt)?;
    d3d12::tour(rt)?;
    metal::tour(rt)
}

fn main(rt: HostRuntime) -> ExitCode {
    match tours(&rt) {
        Ok(()) => ExitCode::SUCCESS,
        Err(error) => {
            let _ = eprintln!(rt; "gpu_example: {error}");
            ExitCode::FAILURE
        }
    }
}
