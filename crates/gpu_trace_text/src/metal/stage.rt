//! How far a Metal trace has come.

ghost use Rattle.std.specs.Prelude.{◌≡◌, IfOk};
ghost use Rattle.gpu_sim_metal.specs.Simulation.{held_of};
ghost use Rattle.gpu_trace_text.specs.MetalStage.{Begins, Does, IsSound, MatchDone, count_in};
ghost use Rattle.gpu_trace_text.specs.declared.dialect.Line.TheVariants as lines;

use crate::metal::configuration::Configuration;
use crate::metal::line::Line;
use crate::metal::looking::look;
use crate::metal::reply::Reply;
use crate::metal::setting::Setting;
use crate::{Outcome, Trace, read};
use gpu_device::metal::MTLResidencySet;
use gpu_metal::{Allocator, AllocatorCreateDesc};
use gpu_run::metal::{Command, Session};
use gpu_run::{Serve, number_of};
use gpu_sim_metal::SimMetal;
use gpu_values::AllocatorDebugSettings;
use log::Log;
use std::alloc::{AllocError, Global};
use std::io;

/// How far a Metal trace has come. It must be ended.
pub enum Stage {
    /// In its configuration.
    Configuring(Configuration),
    /// Its allocator is made.
    Running(Session<SimMetal>),
    /// Only blank lines may follow.
    Closed,
}

/// What holds of a session at any time. It does nothing.
fn show_sound(session: &Session<SimMetal>)
    ensures { IsSound session.now }
{
    session.device().ends_as_scripted();
}

/// Makes the allocator.
fn make(alloc: Global, configuration: Configuration) -> (Stage, Outcome<Reply>)
    ensures { MatchDone (Begins configuration) result }
{
    let allocation_sizes = configuration.sizes();
    let create_residency_set = configuration.wants_set();
    let desc = AllocatorCreateDesc {
        device: configuration.device(alloc),
        debug_settings: AllocatorDebugSettings {
            log_memory_information: false,
            log_leaks_on_shutdown: false,
            log_allocations: false,
            log_frees: false,
        },
        allocation_sizes,
        create_residency_set,
    };
    match Allocator::new(alloc, desc) {
        Ok(allocator) => {
            let session = Session::new(alloc, allocator);
            show_sound(&session);
            (Stage::Running(session), Outcome::Replied(Reply::Made))
        }
        Err((error, _)) => (
            Stage::Closed,
            Outcome::Replied(Reply::Refused(number_of(&error))),
        ),
    }
}

/// Sets what a configuration line says.
fn configure(
    mut configuration: Configuration,
    setting: Setting,
) -> Result<(Stage, Outcome<Reply>), AllocError>
    ensures { IfOk result (MatchDone (Does (Stage.Configuring configuration)
        (lines.Configures setting))) }
{
    if configuration.set(&setting)? {
        Ok((Stage::Configuring(configuration), Outcome::Nothing))
    } else {
        Ok((Stage::Configuring(configuration), Outcome::Bad))
    }
}

/// Serves a line of the configuration.
fn serve_configuring(
    alloc: Global,
    configuration: Configuration,
    line: Line,
) -> Result<(Stage, Outcome<Reply>), AllocError>
    ensures { IfOk result (MatchDone (Does (Stage.Configuring configuration) line)) }
{
    match line {
        Line::Blank => Ok((Stage::Configuring(configuration), Outcome::Nothing)),
        Line::Configures(setting) => configure(configuration, setting),
        Line::New => Ok(make(alloc, configuration)),
        Line::Asks(_) | Line::Other(_) | Line::Destroy | Line::Bad => {
            Ok((Stage::Configuring(configuration), Outcome::Bad))
        }
    }
}

/// How many members the set has, where there is one.
fn count_in(device: &SimMetal, set: Option<MTLResidencySet>) -> u64
    ensures { result ≡ count_in (held_of device.now) set }
{
    let Some(set) = set else {
        return 0;
    };
    match device.members(set) {
        None => 0,
        Some(heaps) => heaps.len() as u64,
    }
}

/// Destroys the allocator.
fn destroy(session: Session<SimMetal>) -> (Stage, Outcome<Reply>)
    ensures { MatchDone (Does (Stage.Running session) lines.Destroy) result }
{
    let set = session.allocator().residency_set().copied();
    let device = session.destroy();
    let count = device.held() as u64;
    let members = count_in(&device, set);
    (
        Stage::Closed,
        Outcome::Replied(Reply::Held { count, members }),
    )
}

/// Serves a command.
fn serve_command<L: Log>(
    log: &L,
    mut session: Session<SimMetal>,
    command: &Command,
) -> (Stage, Outcome<Reply>)
    ensures { MatchDone (Does (Stage.Running session) (lines.Asks command.now)) result }
{
    let reply = session.serve(log, command);
    show_sound(&session);
    (
        Stage::Running(session),
        Outcome::Replied(Reply::Served(reply)),
    )
}

/// Serves a line once the allocator is made.
fn serve_running<L: Log>(
    log: &L,
    alloc: Global,
    session: Session<SimMetal>,
    line: Line,
) -> (Stage, Outcome<Reply>)
    ensures { MatchDone (Does (Stage.Running session) line) result }
{
    match line {
        Line::Blank => (Stage::Running(session), Outcome::Nothing),
        Line::Asks(command) => serve_command(log, session, &command),
        Line::Other(it) => {
            let reply = look(alloc, &session, it);
            (Stage::Running(session), Outcome::Replied(reply))
        }
        Line::Destroy => destroy(session),
        Line::Configures(_) | Line::New | Line::Bad => (Stage::Running(session), Outcome::Bad),
    }
}

/// Serves what a line says. Host memory may be refused for a configuration line alone.
fn serve_line<L: Log>(
    log: &L,
    alloc: Global,
    stage: Stage,
    line: Line,
) -> Result<(Stage, Outcome<Reply>), AllocError>
    ensures { IfOk result (MatchDone (Does stage line)) }
{
    match stage {
        Stage::Configuring(configuration) => serve_configuring(alloc, configuration, line),
        Stage::Running(session) => Ok(serve_running(log, alloc, session, line)),
        Stage::Closed => match line {
            Line::Blank => Ok((Stage::Closed, Outcome::Nothing)),
            _ => Ok((Stage::Closed, Outcome::Bad)),
        },
    }
}

impl Trace for Stage {
    ghost use Rattle.gpu_trace_text.specs.MetalReply.{reply_line};
    ghost use Rattle.gpu_trace_text.specs.MetalStage.{DoesText};

    type Reply = Reply;

    ghost does = { DoesText };

    ghost reply_line = { reply_line };

    fn serve<L: Log>(
        self,
        log: &L,
        alloc: Global,
        line: &[u8],
    ) -> Result<(Self, Outcome<Reply>), AllocError> {
        match read(alloc, line) {
            Ok(line) => serve_line(log, alloc, self, line),
            Err(error) => {
                self.end(log);
                Err(error)
            }
        }
    }

    fn write<W: io::Write>(reply: &Reply, writer: &mut W) -> io::Result<()> {
        writeln!(writer, "{reply}")
    }

    fn end<L: Log>(self, log: &L) {
        match self {
            Stage::Configuring(_) | Stage::Closed => {}
            Stage::Running(session) => {
                let _ = session.destroy();
            }
        }
    }
}
