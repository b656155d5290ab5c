//! Laws of captures of Metal, each the contract of a function that does nothing: what a capture wrote reads back.

ghost use Rattle.std.specs.Prelude.{◌≡◌, ◌≢◌, ℕ, [], ◌∷◌, ◌++◌, List, None, Option, codes, All, Bool};
ghost use Rattle.gpu_capture.specs.declared.request.Request.TheVariants as requests;
ghost use Rattle.gpu_capture.specs.Line.{line_of};
ghost use Rattle.gpu_capture.specs.declared.capture.CaptureEnd.TheVariants.{Whole};
ghost use Rattle.gpu_capture.specs.declared.device.BlockSizes.{BlockSizes};
ghost use Rattle.gpu_capture.specs.CaptureState.{CaptureState, text};
ghost use Rattle.gpu_capture.specs.Devices.{metal_lines};
ghost use Rattle.gpu_capture.specs.History.{Call, Kept};
ghost use Rattle.gpu_capture.specs.Keeps.{Keeps, blank, with_lines};
ghost use Rattle.gpu_run.specs.declared.command.Command.TheVariants.{Other};
ghost use Rattle.gpu_run.specs.declared.metal.command.Other.TheVariants.{Commit};
ghost use Rattle.gpu_trace_text.specs.Captured.{BeginsWith, ReadsBack};
ghost use Rattle.gpu_trace_text.specs.MetalCaptured.{FitsCaptured, IsRequest};
ghost use Rattle.gpu_trace_text.specs.MetalLine.{Means};
ghost use Rattle.gpu_trace_text.specs.MetalSetting.{words as setting_words, SettingFits as FitsSetting};
ghost use Rattle.gpu_trace_text.specs.declared.dialect.Line.TheVariants as lines;
ghost use Rattle.gpu_trace_text.specs.Any.{metal_line};
ghost use Rattle.gpu_trace_text.specs.MetalCalls.{FitsCall, IsCall, refuse_setting, device_settings};
ghost use Rattle.gpu_block_session.specs.Run.{Answers};
ghost use Rattle.gpu_trace_text.specs.Any as any;
ghost use Rattle.gpu_trace_text.specs.CapturedRun.{HasServed};
ghost use Rattle.gpu_trace_text.specs.MetalConfiguration.{nothing_configured};
ghost use Rattle.gpu_trace_text.specs.MetalReply.{reply_line};
ghost use Rattle.gpu_trace_text.specs.MetalStage.{Does};
ghost use Rattle.gpu_trace_text.specs.declared.metal.setting.Setting.{Setting};
ghost use Rattle.gpu_trace_text.specs.declared.any.AnyTrace.TheVariants as traces;
ghost use Rattle.gpu_trace_text.specs.declared.metal.stage.Stage.TheVariants as stages;
ghost use Rattle.gpu_trace_text.specs.declared.stage.Stage.TheVariants as vulkan_stages;
ghost use Rattle.gpu_trace_text.specs.CapturedTrace.{Part, Remarks, IsOfSort, ReadsAs, ReadsUpTo, last_part, parts_of};

use std::alloc::Global;

/// What a capture wrote of allocations, second places, frees, budgets, the device's settings, and of where configuration and trace end.
#[tactic(auto, using(crate::proofs::MetalCaptured::reads_back))]
pub fn lines_read_back(alloc: Global)
    ensures { ReadsBack Means setting_words FitsSetting requests.Metal FitsCaptured IsRequest }
{}

/// That the residency set was committed.
#[tactic(auto, using(crate::proofs::MetalCaptured::commit_reads))]
pub fn commit_reads_back()
    ensures { (rest : List ℕ)
        → BeginsWith Means (λ l. l ≡ lines.Asks (Other Commit)) (line_of (codes "commit" ∷ []) ++ rest) rest }
{}

/// A whole trace: what a capture wrote of a device and of its allocator's calls, all of which it kept, is read as the device's settings, the
/// questions that were refused, these calls, and the allocator's end where that came, and as nothing else.
pub fn trace_reads_back(alloc: Global)
    ensures { (has_set : Bool) (sizes : BlockSizes) (questions : ℕ) (calls : List Call)
        (is_destroyed : Bool) (begun done : CaptureState)
        → Keeps blank (with_lines blank (metal_lines has_set sizes) [] questions) begun
        → Kept calls begun done → done.end ≡ Whole
        → All FitsSetting (device_settings has_set sizes) → All FitsCall calls
        → IsOfSort metal_line (ReadsAs Means IsCall (parts_of refuse_setting (device_settings has_set sizes) questions calls
        (last_part is_destroyed))) (text done is_destroyed) }
{}

/// The trace of a capture that ended early: it is read as the device's settings, the questions that were refused to the calls before the one
/// that it ended at, these calls, and a remark, and as nothing else, whether or not the allocator is gone.
pub fn ended_trace_reads_back(alloc: Global)
    ensures { (has_set : Bool) (sizes : BlockSizes) (questions : ℕ) (calls : List Call)
        (is_destroyed : Bool) (begun done : CaptureState)
        → Keeps blank (with_lines blank (metal_lines has_set sizes) [] questions) begun → begun.end ≡ Whole
        → Kept calls begun done → done.end ≢ Whole
        → All FitsSetting (device_settings has_set sizes) → All FitsCall calls
        → IsOfSort metal_line (ReadsUpTo Means IsCall (λ written. parts_of refuse_setting
        (device_settings has_set sizes) questions written (Remarks ∷ [])) calls) (text done is_destroyed) }
{}

/// A run of a trace that is read so, where no line of it is bad, serves just these parts, one after another: a session over a device with these
/// settings, which refuses just these questions, is asked for these calls.
pub fn trace_runs_again()
    ensures { (parts : List (Part Setting)) (text : List ℕ) (old new : Option (List ℕ))
        → IsOfSort metal_line (ReadsAs Means IsCall parts) text
        → Answers any.Does any.reply_line (traces.Vulkan vulkan_stages.Before) text old new None
        → HasServed Means IsCall Does reply_line (stages.Configuring nothing_configured) parts old new }
{}
