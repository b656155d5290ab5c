//! The words of Metal traces.

use crate::dialect;
use crate::metal::setting::Setting;
use crate::spelled::Spelled;
use gpu_run::metal::Command;
use std::alloc::{AllocError, Global};

/// What is looked up of the device, beside the session.
#[derive(Clone, Copy, Debug, PartialEq, Eq)]
pub enum Look {
    /// The members of the residency set.
    Members,
    /// Its committed members.
    Committed,
    /// How many questions the device was asked, and the latest one for a heap.
    Asked,
}

/// What a line says.
pub type Line = dialect::Line<Setting, Command, Look>;

impl Spelled for Look {
    ghost use Rattle.gpu_trace_text.specs.MetalLine.{look_words, LookFits};

    ghost spelling = { look_words };

    ghost Fits = { LookFits };

    fn said(_: Global, words: &[&str]) -> Result<Option<Look>, AllocError> {
        let [verb] = words else {
            return Ok(None);
        };
        match *verb {
            "members" => Ok(Some(Look::Members)),
            "committed" => Ok(Some(Look::Committed)),
            "asked" => Ok(Some(Look::Asked)),
            _ => Ok(None),
        }
    }
}
