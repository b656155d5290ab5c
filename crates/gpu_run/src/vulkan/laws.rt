//! Laws of sessions, each the contract of a function that does nothing.

ghost use Rattle.std.specs.Prelude.{◌≡◌, ◌≢◌, ℕ, List, Some};
ghost use Rattle.gpu_vulkan.specs.Live.{IsLive};
ghost use Rattle.gpu_vulkan.specs.Setup.{Setup};
ghost use Rattle.gpu_vulkan.specs.Step.{id_of};
ghost use Rattle.gpu_vulkan.specs.declared.allocation.Allocation.{Allocation};
ghost use Rattle.gpu_run.specs.VulkanCommand.{Under, Write};
ghost use Rattle.gpu_run.specs.VulkanReply.{SessionReply};
ghost use Rattle.gpu_run.specs.VulkanSession.{SessionState, IsOwn, CommandEnvironment, SessionServes};
ghost use Rattle.gpu_run.specs.VulkanLaws.{NonInterference};

/// What others write changes nothing of ours. Take a set of the caller's numbers, ours, and two lists of commands that differ
/// only in the bytes of writes to other numbers. In two runs from one state, with refusals that are the same and new blocks that
/// may hold other bytes, all replies are equal but for the bytes that reads give; and a read under a number of ours gives
/// equal bytes at each place that was written under it since its allocation was given, and at every place, if it was live at the
/// beginning. That stands although our pieces may lie where others' lay, and then begin with their bytes.
#[tactic(auto, using(crate::proofs::VulkanNonInterference::non_interference))]
pub fn two_runs()
    ensures { NonInterference }
{}

/// A write under one number leaves the bytes of every other number's live allocation.
pub fn writes_are_apart()
    ensures { (setup : Setup) (key other at : ℕ) (bytes : List ℕ) (o : CommandEnvironment)
        (reply : SessionReply) (old new : SessionState) (b : Allocation) → IsOwn old
        → SessionServes setup (Under key (Write at bytes)) o reply old new → key ≢ other
        → old.bound other ≡ Some b → IsLive old.model.slots b
        → new.model.byte_view.allocation_bytes (id_of b)
        ≡ old.model.byte_view.allocation_bytes (id_of b) }
{}
