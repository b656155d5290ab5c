//! How far a plan trace has come.

use crate::{Command, PlanSession, Reply};
use std::alloc::Global;

/// How far a plan trace has come.
#[derive(Drop)]
pub enum PlanStage {
    /// No plan was begun yet.
    Before,
    /// The plan's resources so far.
    Open(PlanSession),
}

impl PlanStage {
    ghost use Rattle.std.specs.Prelude.{MatchOption};
    ghost use Rattle.gpu_plan_session.specs.PlanWords.{CommandFits};
    ghost use Rattle.gpu_plan_session.specs.PlanSort.{sort_of_command};
    ghost use Rattle.gpu_plan_session.specs.PlanStage.{Admits, Step};

    /// Serves a command, or answers `None` to one that is out of its order.
    pub fn serve(&mut self, alloc: Global, command: Command) -> Option<Reply>
        requires { CommandFits command }
        ensures { MatchOption result (Admits self.old (sort_of_command command) → ⊥)
            (λ r. Step self.old command r self.new) }
    {
        match self {
            PlanStage::Before => match command {
                Command::Plan { page } => {
                    *self = PlanStage::Open(PlanSession::new(alloc, page));
                    Some(Reply::Done)
                }
                Command::Add { .. } | Command::Solve => None,
            },
            PlanStage::Open(session) => match command {
                Command::Plan { .. } => None,
                Command::Add {
                    key,
                    resource,
                    name,
                } => Some(session.add(key, resource, name)),
                Command::Solve => Some(session.solve(alloc)),
            },
        }
    }
}
