//! What a configuration line of a DirectX 12 trace says.

ghost use Rattle.std.specs.Prelude.{◌≡◌, ◌≢◌, [], ◌∷◌, IfOk, MatchOption, codes};
ghost use Rattle.gpu_block_session.specs.Words.{texts};
ghost use Rattle.gpu_trace_text.specs.D3D12Setting.{version_word, words, SettingFits};
ghost use Rattle.gpu_trace_text.specs.Spelled.{Says};
ghost use Rattle.gpu_trace_text.specs.declared.d3d12.setting.Version.{Version};

use crate::device::setting;
use crate::device::setting::shared_setting_of;
use crate::spelled::Spelled;
use gpu_block_session::words::code;
use gpu_device::d3d12::ResourceHeapTier;
use std::alloc::{AllocError, Global};

/// The newest interface that the device has.
#[derive(Clone, Copy, Debug, PartialEq, Eq)]
pub enum Version {
    /// `ID3D12Device`.
    Device,
    /// `ID3D12Device10`.
    Device10,
    /// `ID3D12Device12`.
    Device12,
}

/// A configuration line of a DirectX 12 trace.
#[derive(Clone, Copy, Debug)]
pub enum Setting {
    /// The device's heap tier, or the code with which it can't tell it.
    Tier(Result<ResourceHeapTier, i32>),
    /// The newest interface that the device has.
    Interface(Version),
    /// The sizes of blocks, or a question that the device refuses.
    Shared(setting::Setting),
}

fn told_tier(word: &str) -> Option<Setting>
    ensures { Says words SettingFits (codes "tier" ∷ word.now ∷ []) result }
{
    match word {
        "1" => Some(Setting::Tier(Ok(ResourceHeapTier::Tier1))),
        "2" => Some(Setting::Tier(Ok(ResourceHeapTier::Tier2))),
        _ => None,
    }
}

fn refused_tier(alloc: Global, word: &str, number: &str) -> Result<Option<Setting>, AllocError>
    ensures { IfOk result (λ found. Says words SettingFits
        (codes "tier" ∷ word.now ∷ number.now ∷ []) found) }
{
    if word != "refused" {
        return Ok(None);
    }
    match code(alloc, number)? {
        Some(code) => Ok(Some(Setting::Tier(Err(code)))),
        None => Ok(None),
    }
}

fn tier(alloc: Global, arguments: &[&str]) -> Result<Option<Setting>, AllocError>
    ensures { IfOk result (λ found. Says words SettingFits (codes "tier" ∷ texts arguments.now) found) }
{
    match arguments {
        [word] => Ok(told_tier(word)),
        [word, number] => refused_tier(alloc, word, number),
        _ => Ok(None),
    }
}

fn version_of(word: &str) -> Option<Version>
    ensures { MatchOption result ((v : Version) → word.now ≢ version_word v)
        (λ v. word.now ≡ version_word v) }
{
    match word {
        "device" => Some(Version::Device),
        "device10" => Some(Version::Device10),
        "device12" => Some(Version::Device12),
        _ => None,
    }
}

fn newest(arguments: &[&str]) -> Option<Setting>
    ensures { Says words SettingFits (codes "version" ∷ texts arguments.now) result }
{
    let [word] = arguments else {
        return None;
    };
    let version = version_of(word)?;
    Some(Setting::Interface(version))
}

impl Spelled for Setting {
    ghost use Rattle.gpu_trace_text.specs.D3D12Setting.{words, SettingFits};

    ghost spelling = { words };

    ghost Fits = { SettingFits };

    fn said(alloc: Global, words: &[&str]) -> Result<Option<Setting>, AllocError> {
        let [verb, arguments @ ..] = words else {
            return Ok(None);
        };
        match *verb {
            "tier" => tier(alloc, arguments),
            "version" => Ok(newest(arguments)),
            _ => match shared_setting_of(alloc, verb, arguments)? {
                Some(setting) => Ok(Some(Setting::Shared(setting))),
                None => Ok(None),
            },
        }
    }
}
