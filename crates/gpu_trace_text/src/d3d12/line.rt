//! The words of DirectX 12 traces.

use crate::d3d12::setting::Setting;
use crate::dialect;
use crate::spelled::Spelled;
use gpu_run::d3d12::Command;
use std::alloc::{AllocError, Global};

/// What is looked up of the device, beside the session.
#[derive(Clone, Copy, Debug, PartialEq, Eq)]
pub enum Look {
    /// How many questions the device was asked, and the latest ones for a heap and for a resource.
    Asked,
}

/// What a line says.
pub type Line = dialect::Line<Setting, Command, Look>;

impl Spelled for Look {
    ghost use Rattle.gpu_trace_text.specs.D3D12Line.{look_words, LookFits};

    ghost spelling = { look_words };

    ghost Fits = { LookFits };

    fn said(_: Global, words: &[&str]) -> Result<Option<Look>, AllocError> {
        let [verb] = words else {
            return Ok(None);
        };
        match *verb {
            "asked" => Ok(Some(Look::Asked)),
            _ => Ok(None),
        }
    }
}
