//! The questions that a simulated device was asked, and those that it is told to refuse.

ghost use Rattle.std.specs.Prelude.{◌≡◌};
ghost use Rattle.gpu_sim_base.specs.Script.{refusal_at, next_refusal, counted};

use gpu_device::Refusal;

/// How many questions came, and the refusals that the device is told to give.
#[derive(Drop)]
pub struct Script {
    entries: Vec<(u64, Refusal)>,
    questions: u64,
}

impl Script {
    /// No question came yet. An entry names a question by its number, the first being 1; of two at one number the first
    /// counts.
    pub fn new(entries: Vec<(u64, Refusal)>) -> Self
        ensures { result ≡ record { entries = entries; questions = 0 } }
    {
        Script {
            entries,
            questions: 0,
        }
    }

    /// How many questions came, granted or refused. The count stays at `u64::MAX`.
    pub fn questions(&self) -> u64
        ensures { result ≡ self.now.questions }
    {
        self.questions
    }

    /// The refusal that the script has for the next question.
    pub fn next_refusal(&self) -> Option<Refusal>
        ensures { result ≡ next_refusal self.now }
    {
        refusal_at(&self.entries, self.questions.saturating_add(1))
    }

    /// Counts a question.
    pub fn count(&mut self)
        ensures { self.new ≡ counted self.old }
    {
        self.questions = self.questions.saturating_add(1);
    }
}

/// The refusal that the entries have for a question: of two at one number the first counts.
fn refusal_at(entries: &[(u64, Refusal)], question: u64) -> Option<Refusal>
    ensures { result ≡ refusal_at entries.now question }
{
    for (number, refusal) in entries {
        if *number == question {
            return Some(*refusal);
        }
    }
    None
}
