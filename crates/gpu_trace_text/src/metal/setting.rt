//! What a configuration line of a Metal trace says.

ghost use Rattle.std.specs.Prelude.{◌≡◌, ◌≢◌, ◌∷◌, Bool, MatchOption, codes};
ghost use Rattle.gpu_block_session.specs.Words.{texts};
ghost use Rattle.gpu_capture.specs.Metal.{yes_word};
ghost use Rattle.gpu_trace_text.specs.MetalSetting.{words, SettingFits};
ghost use Rattle.gpu_trace_text.specs.Spelled.{Says};

use crate::device::setting;
use crate::device::setting::shared_setting_of;
use crate::spelled::Spelled;
use std::alloc::{AllocError, Global};

/// A configuration line of a Metal trace.
#[derive(Clone, Copy, Debug)]
pub enum Setting {
    /// Whether the device can make residency sets.
    Sets(bool),
    /// Whether the allocator is to have a residency set.
    Residency(bool),
    /// The sizes of blocks, or a question that the device refuses.
    Shared(setting::Setting),
}

fn is_yes(word: &str) -> Option<bool>
    ensures { MatchOption result ((b : Bool) → word.now ≢ yes_word b) (λ b. word.now ≡ yes_word b) }
{
    match word {
        "yes" => Some(true),
        "no" => Some(false),
        _ => None,
    }
}

fn sets(arguments: &[&str]) -> Option<Setting>
    ensures { Says words SettingFits (codes "sets" ∷ texts arguments.now) result }
{
    let [word] = arguments else {
        return None;
    };
    let yes = is_yes(word)?;
    Some(Setting::Sets(yes))
}

fn residency(arguments: &[&str]) -> Option<Setting>
    ensures { Says words SettingFits (codes "residency" ∷ texts arguments.now) result }
{
    let [word] = arguments else {
        return None;
    };
    let yes = is_yes(word)?;
    Some(Setting::Residency(yes))
}

impl Spelled for Setting {
    ghost use Rattle.gpu_trace_text.specs.MetalSetting.{words, SettingFits};

    ghost spelling = { words };

    ghost Fits = { SettingFits };

    fn said(alloc: Global, words: &[&str]) -> Result<Option<Setting>, AllocError> {
        let [verb, arguments @ ..] = words else {
            return Ok(None);
        };
        match *verb {
            "sets" => Ok(sets(arguments)),
            "residency" => Ok(residency(arguments)),
            _ => match shared_setting_of(alloc, verb, arguments)? {
                Some(setting) => Ok(Some(Setting::Shared(setting))),
                None => Ok(None),
            },
        }
    }
}
