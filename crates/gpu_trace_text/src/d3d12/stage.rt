//! How far a DirectX 12 trace has come.

ghost use Rattle.std.specs.Prelude.{IfOk};
ghost use Rattle.gpu_trace_text.specs.D3D12Stage.{Begins, Does, IsSound, MatchDone};
ghost use Rattle.gpu_trace_text.specs.declared.dialect.Line.TheVariants as lines;

use crate::d3d12::configuration::Configuration;
use crate::d3d12::line::{Line, Look};
use crate::d3d12::looking::asked;
use crate::d3d12::reply::Reply;
use crate::d3d12::setting::Setting;
use crate::{Outcome, Trace, read};
use gpu_d3d12::{Allocator, AllocatorCreateDesc};
use gpu_run::d3d12::{Command, Session};
use gpu_run::{Serve, number_of};
use gpu_sim_d3d12::SimD3D12;
use gpu_values::AllocatorDebugSettings;
use log::Log;
use std::alloc::{AllocError, Global};
use std::io;

/// How far a DirectX 12 trace has come. It must be ended.
pub enum Stage {
    /// In its configuration.
    Configuring(Configuration),
    /// Its allocator is made.
    Running(Session<SimD3D12>),
    /// Only blank lines may follow.
    Closed,
}

/// What holds of a session at any time. It does nothing.
fn show_sound(session: &Session<SimD3D12>)
    ensures { IsSound session.now }
{
    session.device().device().ends_as_scripted();
}

/// Makes the allocator.
fn make(alloc: Global, configuration: Configuration) -> (Stage, Outcome<Reply>)
    ensures { MatchDone (Begins configuration) result }
{
    let allocation_sizes = configuration.sizes();
    let desc = AllocatorCreateDesc {
        device: configuration.device(alloc),
        debug_settings: AllocatorDebugSettings {
            log_memory_information: false,
            log_leaks_on_shutdown: false,
            log_allocations: false,
            log_frees: false,
        },
        allocation_sizes,
    };
    match Allocator::new(alloc, desc) {
        Ok(allocator) => {
            let session = Session::new(alloc, allocator);
            show_sound(&session);
            (Stage::Running(session), Outcome::Replied(Reply::Made))
        }
        Err((error, _)) => (
            Stage::Closed,
            Outcome::Replied(Reply::Refused(number_of(&error))),
        ),
    }
}

/// Sets what a configuration line says.
fn configure(
    mut configuration: Configuration,
    setting: Setting,
) -> Result<(Stage, Outcome<Reply>), AllocError>
    ensures { IfOk result (MatchDone (Does (Stage.Configuring configuration)
        (lines.Configures setting))) }
{
    if configuration.set(&setting)? {
        Ok((Stage::Configuring(configuration), Outcome::Nothing))
    } else {
        Ok((Stage::Configuring(configuration), Outcome::Bad))
    }
}

/// Serves a line of the configuration.
fn serve_configuring(
    alloc: Global,
    configuration: Configuration,
    line: Line,
) -> Result<(Stage, Outcome<Reply>), AllocError>
    ensures { IfOk result (MatchDone (Does (Stage.Configuring configuration) line)) }
{
    match line {
        Line::Blank => Ok((Stage::Configuring(configuration), Outcome::Nothing)),
        Line::Configures(setting) => configure(configuration, setting),
        Line::New => Ok(make(alloc, configuration)),
        Line::Asks(_) | Line::Other(_) | Line::Destroy | Line::Bad => {
            Ok((Stage::Configuring(configuration), Outcome::Bad))
        }
    }
}

/// Destroys the allocator.
fn destroy<L: Log>(log: &L, session: Session<SimD3D12>) -> (Stage, Outcome<Reply>)
    ensures { MatchDone (Does (Stage.Running session) lines.Destroy) result }
{
    let device = session.destroy(log).into_device();
    let count = device.held() as u64;
    (Stage::Closed, Outcome::Replied(Reply::Held(count)))
}

/// Serves a command.
fn serve_command<L: Log>(
    log: &L,
    mut session: Session<SimD3D12>,
    command: &Command,
) -> (Stage, Outcome<Reply>)
    ensures { MatchDone (Does (Stage.Running session) (lines.Asks command.now)) result }
{
    let reply = session.serve(log, command);
    show_sound(&session);
    (
        Stage::Running(session),
        Outcome::Replied(Reply::Served(reply)),
    )
}

/// Serves a line once the allocator is made.
fn serve_running<L: Log>(log: &L, session: Session<SimD3D12>, line: Line) -> (Stage, Outcome<Reply>)
    ensures { MatchDone (Does (Stage.Running session) line) result }
{
    match line {
        Line::Blank => (Stage::Running(session), Outcome::Nothing),
        Line::Asks(command) => serve_command(log, session, &command),
        Line::Other(Look::Asked) => {
            let reply = asked(session.device().device());
            (Stage::Running(session), Outcome::Replied(reply))
        }
        Line::Destroy => destroy(log, session),
        Line::Configures(_) | Line::New | Line::Bad => (Stage::Running(session), Outcome::Bad),
    }
}

/// Serves what a line says. Host memory may be refused for a configuration line alone.
fn serve_line<L: Log>(
    log: &L,
    alloc: Global,
    stage: Stage,
    line: Line,
) -> Result<(Stage, Outcome<Reply>), AllocError>
    ensures { IfOk result (MatchDone (Does stage line)) }
{
    match stage {
        Stage::Configuring(configuration) => serve_configuring(alloc, configuration, line),
        Stage::Running(session) => Ok(serve_running(log, session, line)),
        Stage::Closed => match line {
            Line::Blank => Ok((Stage::Closed, Outcome::Nothing)),
            _ => Ok((Stage::Closed, Outcome::Bad)),
        },
    }
}

impl Trace for Stage {
    ghost use Rattle.gpu_trace_text.specs.D3D12Reply.{reply_line};
    ghost use Rattle.gpu_trace_text.specs.D3D12Stage.{DoesText};

    type Reply = Reply;

    ghost does = { DoesText };

    ghost reply_line = { reply_line };

    fn serve<L: Log>(
        self,
        log: &L,
        alloc: Global,
        line: &[u8],
    ) -> Result<(Self, Outcome<Reply>), AllocError> {
        match read(alloc, line) {
            Ok(line) => serve_line(log, alloc, self, line),
            Err(error) => {
                self.end(log);
                Err(error)
            }
        }
    }

    fn write<W: io::Write>(reply: &Reply, writer: &mut W) -> io::Result<()> {
        writeln!(writer, "{reply}")
    }

    fn end<L: Log>(self, log: &L) {
        match self {
            Stage::Configuring(_) | Stage::Closed => {}
            Stage::Running(session) => {
                let _ = session.destroy(log);
            }
        }
    }
}
