//! Budgets of memory types.

ghost use Rattle.std.specs.Prelude.{◌≡◌, ◌<◌, IfOk, string_bytes};
ghost use Rattle.gpu_capture.specs.Line.{line_of};
ghost use Rattle.gpu_capture.specs.Words.{budget_words};
ghost use Rattle.gpu_capture.specs.Budgets.{Bounds};

use crate::capture::{Capture, CaptureEnd};
use crate::words::BudgetWord;
use std::alloc::{AllocError, Global};

fn budget_line(alloc: Global, memory_type: usize, budget: Option<u64>) -> Result<String, AllocError>
    ensures { IfOk result (λ l. string_bytes l ≡ line_of (budget_words memory_type budget)) }
{
    let word = BudgetWord(budget);
    format!(in alloc; "budget {memory_type} {word}\n")
}

impl Capture {
    /// A memory type has this budget now.
    pub fn bounded(&mut self, alloc: Global, memory_type: usize, budget: Option<u64>)
        requires { memory_type < 32 }
        ensures { Bounds self.old memory_type budget self.new }
    {
        if self.budget(memory_type) == budget {
            return;
        }
        match budget_line(alloc, memory_type, budget) {
            Ok(line) => self.keep_budget(line.as_str(), memory_type, budget),
            Err(_) => self.stop(CaptureEnd::HostOutOfMemory),
        }
    }
}
