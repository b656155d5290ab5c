//! The words of block traces and device traces.

use crate::device::setting::Setting;
use crate::dialect;
use crate::spelled::Spelled;
use gpu_block_session::block::Command;
use gpu_block_session::text;
use gpu_run::vulkan::Command as Ask;
use std::alloc::{AllocError, Global};

/// What a line says: a setting or a command of a device trace, or a command of a block trace. `report` is read as the latter.
pub type Line = dialect::Line<Setting, Ask, Command>;

impl Spelled for Command {
    ghost use Rattle.gpu_block_session.specs.BlockWords.{words, CommandFits};

    ghost spelling = { words };

    ghost Fits = { CommandFits };

    #[tactic(auto, using(crate::proofs::Commands::block_said))]
    fn said(alloc: Global, words: &[&str]) -> Result<Option<Command>, AllocError> {
        let [verb, arguments @ ..] = words else {
            return Ok(None);
        };
        text::command_of(alloc, verb, arguments)
    }
}
