//! Sessions that serve one command after another.

ghost use Rattle.std.specs.Prelude.{◌≡◌, length, IfOk, IfErr, OnErr};
ghost use Rattle.gpu_values.specs.declared.error.AllocationError.TheVariants.{HostOutOfMemory};
ghost use Rattle.gpu_block_session.specs.CommandList.{IsRun};

use gpu_values::{AllocationError, Result};
use log::Log;
use std::alloc::Global;

/// What serves one command at a time: a state, and for each command a reply and the next state.
pub trait Serve {
    /// What it is asked for.
    type Command;
    /// What it answers.
    type Reply: Drop;

    // From a state, the command may be answered so, and leaves this state.
    ghost serves: { Self → Self.Command → Self.Reply → Self → Type 0 };

    /// Serves one command. What it lacks of memory is its reply.
    fn serve<L: Log>(&mut self, log: &L, command: &Self::Command) -> Self::Reply
        ensures { serves self.old command.now result self.new };
}

/// Serves commands one after another, and answers a reply for each. Room for all replies is made first: where it is refused,
/// the answer is `HostOutOfMemory` and nothing has run.
pub fn run<S: Serve, L: Log>(
    alloc: Global,
    session: &mut S,
    log: &L,
    commands: &[S::Command],
) -> Result<Vec<S::Reply>>
    ensures run { IfOk result (λ replies. IsRun S.serves commands.now replies.items session.old
        session.new) }
    ensures count { IfOk result (λ replies. length replies.items ≡ length commands.now) }
    ensures nothing { OnErr result (session.new ≡ session.old) }
    ensures cause { IfErr result (λ e. e ≡ HostOutOfMemory) }
{
    let Ok(mut replies) = Vec::with_capacity(alloc, commands.len()) else {
        return Err(AllocationError::HostOutOfMemory);
    };
    for command in commands {
        let reply = session.serve(log, command);
        replies.push_reserved(reply);
    }
    Ok(replies)
}
