//! How far a trace has come.

ghost use Rattle.std.specs.Prelude.{IfOk};
ghost use Rattle.gpu_block_session.specs.BlockWords.{CommandFits};
ghost use Rattle.gpu_run.specs.VulkanServed.{command_of};
ghost use Rattle.gpu_trace_text.specs.Stage.{IsSound, Begins, Does, MatchServed, Ended, FitsLine};
ghost use Rattle.gpu_block_session.specs.declared.block_stage.BlockStage.TheVariants as block_stages;
ghost use Rattle.gpu_trace_text.specs.declared.dialect.Line.TheVariants as lines;

use crate::configuration::Configuration;
use crate::device::reply as device;
use crate::device::setting::Setting;
use crate::{Line, Outcome, Reply};
use gpu_block_session::block::Command;
use gpu_block_session::{BlockStage, number_of};
use gpu_device::vulkan::PhysicalDevice;
use gpu_run::vulkan::{Command as Ask, Session};
use gpu_sim::SimVulkan;
use gpu_values::AllocatorDebugSettings;
use gpu_vulkan::{Allocator, AllocatorCreateDesc};
use log::Log;
use std::alloc::{AllocError, Global};

/// How far a trace has come. It must be ended.
pub enum Stage {
    /// Only blank lines came yet.
    Before,
    /// In a block trace.
    Block(BlockStage),
    /// In the configuration of a device trace.
    Configuring(Configuration),
    /// In a device trace whose allocator is made.
    Device(Session<SimVulkan>),
    /// Only blank lines may follow.
    Closed,
}

/// Serves a command of a block trace.
fn serve_block(mut stage: BlockStage, alloc: Global, command: Command) -> (Stage, Outcome<Reply>)
    requires { CommandFits command }
    ensures { Does (Stage.Block stage) (lines.Other command) result.1 result.0 }
{
    match stage.serve(alloc, &command) {
        Some(reply) => (Stage::Block(stage), Outcome::Replied(Reply::Block(reply))),
        None => (Stage::Block(stage), Outcome::Bad),
    }
}

/// What holds of a session at any time. It does nothing.
fn show_sound(session: &Session<SimVulkan>)
    ensures { IsSound session.now }
{
    session.numbers_own_their_pieces();
    session.device().ends_as_scripted();
}

/// Makes the allocator of a device trace.
fn make<L: Log>(log: &L, alloc: Global, configuration: Configuration) -> (Stage, device::Reply)
    ensures { Begins configuration result.1 result.0 }
{
    let allocation_sizes = configuration.sizes();
    let desc = AllocatorCreateDesc {
        device: configuration.device(alloc),
        physical_device: PhysicalDevice(1),
        debug_settings: AllocatorDebugSettings {
            log_memory_information: false,
            log_leaks_on_shutdown: false,
            log_allocations: false,
            log_frees: false,
        },
        buffer_device_address: false,
        allocation_sizes,
    };
    match Allocator::new(log, alloc, desc) {
        Ok(allocator) => {
            let session = Session::new(alloc, allocator);
            show_sound(&session);
            (Stage::Device(session), device::Reply::Made)
        }
        Err((error, _)) => (Stage::Closed, device::Reply::Refused(number_of(&error))),
    }
}

/// Sets what a configuration line says.
fn configure(
    mut configuration: Configuration,
    setting: Setting,
) -> Result<(Stage, Outcome<Reply>), AllocError>
    ensures { IfOk result (λ r. Does (Stage.Configuring configuration) (lines.Configures setting) r.1
        r.0) }
{
    if configuration.set(&setting)? {
        Ok((Stage::Configuring(configuration), Outcome::Nothing))
    } else {
        Ok((Stage::Configuring(configuration), Outcome::Bad))
    }
}

/// Serves one command of a device trace.
fn serve_ask<L: Log>(
    log: &L,
    mut session: Session<SimVulkan>,
    command: &Ask,
) -> (Stage, Outcome<Reply>)
    ensures { MatchServed session (command_of command.now) result }
{
    let reply = session.serve(log, command);
    show_sound(&session);
    (
        Stage::Device(session),
        Outcome::Replied(Reply::Device(device::Reply::Served(reply))),
    )
}

/// Serves a line of a device trace whose allocator is made.
fn serve_device<L: Log>(log: &L, session: Session<SimVulkan>, line: Line) -> (Stage, Outcome<Reply>)
    ensures { Does (Stage.Device session) line result.1 result.0 }
{
    match line {
        Line::Blank => (Stage::Device(session), Outcome::Nothing),
        Line::Other(command) => match command {
            Command::Report => serve_ask(log, session, &Ask::Report),
            _ => (Stage::Device(session), Outcome::Bad),
        },
        Line::Asks(command) => serve_ask(log, session, &command),
        Line::Destroy => {
            let device = session.destroy(log);
            let count = device.held() as u64;
            (
                Stage::Closed,
                Outcome::Replied(Reply::Device(device::Reply::Held(count))),
            )
        }
        Line::Configures(_) | Line::New | Line::Bad => (Stage::Device(session), Outcome::Bad),
    }
}

impl Stage {
    /// Serves what a line says. Host memory may be refused for a configuration line alone.
    pub fn serve<L: Log>(
        self,
        log: &L,
        alloc: Global,
        line: Line,
    ) -> Result<(Stage, Outcome<Reply>), AllocError>
        requires { FitsLine line }
        ensures { IfOk result (λ r. Does self line r.1 r.0) }
    {
        match self {
            Stage::Before => serve_first(log, alloc, line),
            Stage::Block(stage) => match line {
                Line::Blank => Ok((Stage::Block(stage), Outcome::Nothing)),
                Line::Other(command) => Ok(serve_block(stage, alloc, command)),
                _ => Ok((Stage::Block(stage), Outcome::Bad)),
            },
            Stage::Configuring(configuration) => serve_configuring(log, alloc, configuration, line),
            Stage::Device(session) => Ok(serve_device(log, session, line)),
            Stage::Closed => match line {
                Line::Blank => Ok((Stage::Closed, Outcome::Nothing)),
                _ => Ok((Stage::Closed, Outcome::Bad)),
            },
        }
    }

    /// Ends the trace: an allocator that is still there is destroyed, and its device answered.
    pub fn end<L: Log>(self, log: &L) -> Option<SimVulkan>
        ensures { Ended self result }
    {
        match self {
            Stage::Before | Stage::Block(_) | Stage::Configuring(_) | Stage::Closed => None,
            Stage::Device(session) => Some(session.destroy(log)),
        }
    }
}

/// Serves the first line that isn't blank.
fn serve_first<L: Log>(
    log: &L,
    alloc: Global,
    line: Line,
) -> Result<(Stage, Outcome<Reply>), AllocError>
    requires { FitsLine line }
    ensures { IfOk result (λ r. Does Stage.Before line r.1 r.0) }
{
    match line {
        Line::Blank => Ok((Stage::Before, Outcome::Nothing)),
        Line::Other(command) => Ok(serve_block(BlockStage::Before, alloc, command)),
        Line::Configures(setting) => configure(Configuration::new(alloc), setting),
        Line::New => {
            let (stage, reply) = make(log, alloc, Configuration::new(alloc));
            Ok((stage, Outcome::Replied(Reply::Device(reply))))
        }
        Line::Asks(_) | Line::Destroy | Line::Bad => Ok((Stage::Before, Outcome::Bad)),
    }
}

/// Serves a line of the configuration of a device trace.
fn serve_configuring<L: Log>(
    log: &L,
    alloc: Global,
    configuration: Configuration,
    line: Line,
) -> Result<(Stage, Outcome<Reply>), AllocError>
    ensures { IfOk result (λ r. Does (Stage.Configuring configuration) line r.1 r.0) }
{
    match line {
        Line::Blank => Ok((Stage::Configuring(configuration), Outcome::Nothing)),
        Line::Configures(setting) => configure(configuration, setting),
        Line::New => {
            let (stage, reply) = make(log, alloc, configuration);
            Ok((stage, Outcome::Replied(Reply::Device(reply))))
        }
        _ => Ok((Stage::Configuring(configuration), Outcome::Bad)),
    }
}
