//! Laws of captures, each the contract of a function that does nothing: what a capture wrote reads back.

ghost use Rattle.std.specs.Prelude.{◌≡◌, ◌≢◌, ℕ, ◌<◌, ◌^◌, ◌++◌, ◌∷◌, List, None, Option, [], All, Bool};
ghost use Rattle.gpu_capture.specs.declared.request.Request.TheVariants.{Vulkan};
ghost use Rattle.gpu_capture.specs.Line.{line_of, name_word};
ghost use Rattle.gpu_capture.specs.Words.{rename_words};
ghost use Rattle.gpu_capture.specs.declared.capture.CaptureEnd.TheVariants.{Whole};
ghost use Rattle.gpu_capture.specs.declared.device.BlockSizes.{BlockSizes};
ghost use Rattle.gpu_capture.specs.declared.device.VulkanDevice.{VulkanDevice};
ghost use Rattle.gpu_capture.specs.CaptureState.{CaptureState, text};
ghost use Rattle.gpu_capture.specs.Devices.{vulkan_lines};
ghost use Rattle.gpu_capture.specs.History.{Call, Kept};
ghost use Rattle.gpu_capture.specs.Keeps.{Keeps, blank, with_lines};
ghost use Rattle.gpu_trace_text.specs.Captured.{BeginsWith, FitsCaptured, IsRequest, IsRename, ReadsBack};
ghost use Rattle.gpu_trace_text.specs.Line.{Means};
ghost use Rattle.gpu_trace_text.specs.Setting.{words as setting_words, SettingFits as FitsSetting};
ghost use Rattle.gpu_trace_text.specs.CapturedCalls.{FitsCall, IsCall, refuse_setting, device_settings};
ghost use Rattle.gpu_block_session.specs.Run.{Answers};
ghost use Rattle.gpu_trace_text.specs.Any as any;
ghost use Rattle.gpu_trace_text.specs.CapturedRun.{HasServed};
ghost use Rattle.gpu_trace_text.specs.Reply.{reply_line};
ghost use Rattle.gpu_trace_text.specs.Stage.{Does};
ghost use Rattle.gpu_trace_text.specs.declared.device.setting.Setting.{Setting};
ghost use Rattle.gpu_trace_text.specs.declared.any.AnyTrace.TheVariants as traces;
ghost use Rattle.gpu_trace_text.specs.declared.stage.Stage.TheVariants as stages;
ghost use Rattle.gpu_trace_text.specs.CapturedTrace.{Part, Remarks, ReadsAs, ReadsUpTo, last_part, parts_of};

use std::alloc::Global;

/// What a capture wrote of allocations, second places, frees, budgets, the device's settings, and of where configuration and trace end.
#[tactic(auto, using(crate::proofs::Captured::reads_back))]
pub fn lines_read_back(alloc: Global)
    ensures { ReadsBack Means setting_words FitsSetting Vulkan FitsCaptured IsRequest }
{}

/// A new name, of any bytes.
#[tactic(auto, using(crate::proofs::Captured::rename_reads))]
pub fn rename_reads_back(alloc: Global)
    ensures { (number : ℕ) (name rest : List ℕ) → number < 2 ^ 64
        → BeginsWith Means (IsRename number name)
        (line_of (rename_words number (name_word name)) ++ rest) rest }
{}

/// A whole trace: what a capture wrote of a device and of its allocator's calls, all of which it kept, is read as the device's settings, the
/// questions that were refused, these calls, and the allocator's end where that came, and as nothing else.
pub fn trace_reads_back(alloc: Global)
    ensures { (device : VulkanDevice) (sizes : BlockSizes) (questions : ℕ) (calls : List Call)
        (is_destroyed : Bool) (begun done : CaptureState)
        → Keeps blank (with_lines blank (vulkan_lines device sizes) [] questions) begun
        → Kept calls begun done → done.end ≡ Whole
        → All FitsSetting (device_settings device sizes) → All FitsCall calls
        → ReadsAs Means IsCall (parts_of refuse_setting (device_settings device sizes) questions calls
        (last_part is_destroyed)) (text done is_destroyed) }
{}

/// The trace of a capture that ended early: it is read as the device's settings, the questions that were refused to the calls before the one
/// that it ended at, these calls, and a remark, and as nothing else, whether or not the allocator is gone.
pub fn ended_trace_reads_back(alloc: Global)
    ensures { (device : VulkanDevice) (sizes : BlockSizes) (questions : ℕ) (calls : List Call)
        (is_destroyed : Bool) (begun done : CaptureState)
        → Keeps blank (with_lines blank (vulkan_lines device sizes) [] questions) begun → begun.end ≡ Whole
        → Kept calls begun done → done.end ≢ Whole
        → All FitsSetting (device_settings device sizes) → All FitsCall calls
        → ReadsUpTo Means IsCall (λ written. parts_of refuse_setting
        (device_settings device sizes) questions written (Remarks ∷ [])) calls (text done is_destroyed) }
{}

/// A run of a trace that is read so, where no line of it is bad, serves just these parts, one after another: a session over a device with these
/// settings, which refuses just these questions, is asked for these calls.
#[tactic(auto, using(crate::proofs::CapturedRuns::vulkan_runs))]
pub fn trace_runs_again()
    ensures { (parts : List (Part Setting)) (text : List ℕ) (old new : Option (List ℕ))
        → ReadsAs Means IsCall parts text
        → Answers any.Does any.reply_line (traces.Vulkan stages.Before) text old new None
        → HasServed Means IsCall Does reply_line stages.Before parts old new }
{}
