//! Laws of captures of DirectX 12, each the contract of a function that does nothing: what a capture wrote reads back.

ghost use Rattle.std.specs.Prelude.{◌≡◌, ◌≢◌, ℕ, ◌<◌, ◌^◌, ◌++◌, ◌∷◌, List, None, Option, [], All, Bool};
ghost use Rattle.gpu_device.specs.declared.d3d12.types.ResourceHeapTier.{ResourceHeapTier};
ghost use Rattle.gpu_capture.specs.declared.request.Request.TheVariants as requests;
ghost use Rattle.gpu_capture.specs.declared.request.D3D12Request.{D3D12Request};
ghost use Rattle.gpu_capture.specs.D3D12.{release_words};
ghost use Rattle.gpu_capture.specs.Line.{line_of, name_word};
ghost use Rattle.gpu_capture.specs.Words.{rename_words};
ghost use Rattle.gpu_capture.specs.declared.capture.CaptureEnd.TheVariants.{Whole};
ghost use Rattle.gpu_capture.specs.declared.device.BlockSizes.{BlockSizes};
ghost use Rattle.gpu_capture.specs.CaptureState.{CaptureState, text};
ghost use Rattle.gpu_capture.specs.Devices.{d3d12_lines};
ghost use Rattle.gpu_capture.specs.History.{Call, Kept};
ghost use Rattle.gpu_capture.specs.Keeps.{Keeps, blank, with_lines};
ghost use Rattle.gpu_capture.specs.Requests.{committed_line};
ghost use Rattle.gpu_run.specs.declared.command.Command.TheVariants.{Other};
ghost use Rattle.gpu_run.specs.declared.d3d12.command.Other.TheVariants.{Release};
ghost use Rattle.gpu_trace_text.specs.Captured.{BeginsWith, ReadsBack};
ghost use Rattle.gpu_trace_text.specs.D3D12Captured.{FitsCaptured, IsRequest, IsRename};
ghost use Rattle.gpu_trace_text.specs.D3D12Line.{Means};
ghost use Rattle.gpu_trace_text.specs.D3D12Setting.{words as setting_words, SettingFits as FitsSetting};
ghost use Rattle.gpu_trace_text.specs.declared.dialect.Line.TheVariants as lines;
ghost use Rattle.gpu_trace_text.specs.Any.{d3d12_line};
ghost use Rattle.gpu_trace_text.specs.D3D12Calls.{FitsCall, IsCall, IsCreate, refuse_setting, device_settings};
ghost use Rattle.gpu_block_session.specs.Run.{Answers};
ghost use Rattle.gpu_trace_text.specs.Any as any;
ghost use Rattle.gpu_trace_text.specs.CapturedRun.{HasServed};
ghost use Rattle.gpu_trace_text.specs.D3D12Configuration.{nothing_configured};
ghost use Rattle.gpu_trace_text.specs.D3D12Reply.{reply_line};
ghost use Rattle.gpu_trace_text.specs.D3D12Stage.{Does};
ghost use Rattle.gpu_trace_text.specs.declared.d3d12.setting.Setting.{Setting};
ghost use Rattle.gpu_trace_text.specs.declared.any.AnyTrace.TheVariants as traces;
ghost use Rattle.gpu_trace_text.specs.declared.d3d12.stage.Stage.TheVariants as stages;
ghost use Rattle.gpu_trace_text.specs.declared.stage.Stage.TheVariants as vulkan_stages;
ghost use Rattle.gpu_trace_text.specs.CapturedTrace.{Part, Remarks, IsOfSort, ReadsAs, ReadsUpTo, last_part, parts_of};

use std::alloc::Global;

/// What a capture wrote of allocations, second places, frees, budgets, the device's settings, and of where configuration and trace end.
#[tactic(auto, using(crate::proofs::D3D12Captured::reads_back))]
pub fn lines_read_back(alloc: Global)
    ensures { ReadsBack Means setting_words FitsSetting requests.D3D12 FitsCaptured IsRequest }
{}

/// A committed resource: a buffer of as many whole units of 65,536 bytes.
pub fn committed_reads_back(alloc: Global)
    ensures { (number : ℕ) (r : D3D12Request) (rest : List ℕ) → number < 2 ^ 64 → r.size < 2 ^ 64
        → BeginsWith Means (IsCreate number r) (committed_line number r ++ rest) rest }
{}

/// A committed resource's release.
#[tactic(auto, using(crate::proofs::D3D12Captured::release_reads))]
pub fn release_reads_back()
    ensures { (number : ℕ) (rest : List ℕ) → number < 2 ^ 64
        → BeginsWith Means (λ l. l ≡ lines.Asks (Other (Release number)))
        (line_of (release_words number) ++ rest) rest }
{}

/// A new name, of any bytes.
#[tactic(auto, using(crate::proofs::D3D12Captured::rename_reads))]
pub fn rename_reads_back(alloc: Global)
    ensures { (number : ℕ) (name rest : List ℕ) → number < 2 ^ 64
        → BeginsWith Means (IsRename number name)
        (line_of (rename_words number (name_word name)) ++ rest) rest }
{}

/// A whole trace: what a capture wrote of a device and of its allocator's calls, all of which it kept, is read as the device's settings, the
/// questions that were refused, these calls, and the allocator's end where that came, and as nothing else.
pub fn trace_reads_back(alloc: Global)
    ensures { (tier : ResourceHeapTier) (sizes : BlockSizes) (questions : ℕ) (calls : List Call)
        (is_destroyed : Bool) (begun done : CaptureState)
        → Keeps blank (with_lines blank (d3d12_lines tier sizes) [] questions) begun
        → Kept calls begun done → done.end ≡ Whole
        → All FitsSetting (device_settings tier sizes) → All FitsCall calls
        → IsOfSort d3d12_line (ReadsAs Means IsCall (parts_of refuse_setting (device_settings tier sizes) questions calls
        (last_part is_destroyed))) (text done is_destroyed) }
{}

/// The trace of a capture that ended early: it is read as the device's settings, the questions that were refused to the calls before the one
/// that it ended at, these calls, and a remark, and as nothing else, whether or not the allocator is gone.
pub fn ended_trace_reads_back(alloc: Global)
    ensures { (tier : ResourceHeapTier) (sizes : BlockSizes) (questions : ℕ) (calls : List Call)
        (is_destroyed : Bool) (begun done : CaptureState)
        → Keeps blank (with_lines blank (d3d12_lines tier sizes) [] questions) begun → begun.end ≡ Whole
        → Kept calls begun done → done.end ≢ Whole
        → All FitsSetting (device_settings tier sizes) → All FitsCall calls
        → IsOfSort d3d12_line (ReadsUpTo Means IsCall (λ written. parts_of refuse_setting
        (device_settings tier sizes) questions written (Remarks ∷ [])) calls) (text done is_destroyed) }
{}

/// A run of a trace that is read so, where no line of it is bad, serves just these parts, one after another: a session over a device with these
/// settings, which refuses just these questions, is asked for these calls.
pub fn trace_runs_again()
    ensures { (parts : List (Part Setting)) (text : List ℕ) (old new : Option (List ℕ))
        → IsOfSort d3d12_line (ReadsAs Means IsCall parts) text
        → Answers any.Does any.reply_line (traces.Vulkan vulkan_stages.Before) text old new None
        → HasServed Means IsCall Does reply_line (stages.Configuring nothing_configured) parts old new }
{}
