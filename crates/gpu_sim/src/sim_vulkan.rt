//! A simulated Vulkan device.

ghost use Rattle.std.specs.Prelude.{◌≡◌, ◌≢◌, ℕ, ◌+◌, ◌^◌, ◌<◌, List, [], ◌∷◌, length, replicate, refl, Some, None, IfSome, IfOk, IfErr, OnErr, OnOk, true, false};
ghost use Rattle.std.specs.FinMap.{empty, get, insert, remove, len as map_len};
ghost use Rattle.gpu_device.specs.Held.{new_entry, size_of, IsUnmapped, mapped_with, unmapped, raised};
ghost use Rattle.gpu_device.specs.VulkanHistory.{scripted, questions_in};
ghost use Rattle.gpu_device.specs.declared.vulkan.event.Event.TheVariants.{Limited, AskedMemory, AskedMapping, Unmapped, Freed};
ghost use Rattle.gpu_sim.specs.Plan.{asked, given, planned_code, planned_answer, out_of_host_memory};
ghost use Rattle.gpu_sim.specs.Scripted.{EndAsScripted};
ghost use Rattle.gpu_sim.specs.Simulation.{held_of, properties_of, plan_of, history_of, refused_of, latest_of, written_sim};
ghost use Rattle.gpu_sim.specs.SimulationLaws.{no_null as no_null_law, whole as whole_law, written_held as written_held_law};

use crate::memories::Memories;
use crate::refusal::{OUT_OF_HOST_MEMORY, answer_for_mapping, code_for_memory};
use crate::scripted_journal::ScriptedJournal;
use gpu_device::vulkan::{
    DeviceMemory, MemoryAllocateInfo, MemoryHeap, MemoryTypeInfo, VulkanDevice,
};
use gpu_sim_base::Refusal;
use std::alloc::Global;

/// A Vulkan device without a GPU: its memories have the numbers 1, 2 and so on, and bytes while they are mapped, zeros
/// at first. It refuses the questions that its script names by their number, the first question being 1; memory above
/// its limit, with code -2; mappings above `isize::MAX` bytes, with code -5; and what the host refuses it, with code -1.
/// Sizes of heaps are told, and not enforced.
#[derive(Drop)]
pub struct SimVulkan {
    alloc: Global,
    heaps: Vec<MemoryHeap>,
    types: Vec<MemoryTypeInfo>,
    granularity: u64,
    memories: Memories,
    journal: ScriptedJournal,
}

impl SimVulkan {
    /// A device that holds nothing. `limit` is the largest memory in bytes; `refusals` names questions by their number,
    /// and of two at one number the first counts.
    pub fn new(
        alloc: Global,
        heaps: Vec<MemoryHeap>,
        types: Vec<MemoryTypeInfo>,
        granularity: u64,
        limit: u64,
        refusals: Vec<(u64, Refusal)>,
    ) -> Self
        ensures held { held_of result ≡ empty }
        ensures plan { plan_of result ≡ record {
          properties = record {
            types = types.items;
            heaps = heaps.items;
            granularity =
                granularity;
          };
          limit = limit;
          script = refusals.items;
          questions = 0;
          issued = 0;
        } }
        ensures history { history_of result ≡ Limited limit ∷ scripted refusals.items }
        ensures refused { refused_of result ≡ 0 }
        ensures latest { latest_of result ≡ None }
    {
        SimVulkan {
            alloc,
            heaps,
            types,
            granularity,
            memories: Memories::new(alloc),
            journal: ScriptedJournal::new(limit, refusals),
        }
    }

    /// How many memories it holds.
    pub fn held(&self) -> usize
        ensures { result ≡ map_len (held_of self.now) }
    {
        self.memories.count()
    }

    /// How many questions came, for memory and for mappings, granted or refused. The count stays at `u64::MAX`.
    pub fn questions(&self) -> u64
        ensures plan { result ≡ (plan_of self.now).questions }
        ensures history { result ≡ questions_in (history_of self.now) }
    {
        self.journal.questions()
    }

    /// At any time each question has ended as the script and the limit say, with which the history begins. It does nothing.
    pub fn ends_as_scripted(&self)
        ensures { EndAsScripted (history_of self.now) }
    {
        self.journal.ends_as_scripted();
    }

    /// The latest question for memory, granted or refused.
    pub fn last_info(&self) -> Option<MemoryAllocateInfo>
        ensures { result ≡ latest_of self.now }
    {
        self.journal.last_info()
    }
}

impl VulkanDevice for SimVulkan {
    ghost properties = { properties_of };

    ghost held = { held_of };

    ghost history = { history_of };

    ghost refused = { refused_of };

    ghost latest = { latest_of };

    ghost written = { written_sim };

    ghost no_null = { no_null_law };

    ghost whole = { whole_law };

    ghost write_leaves_others = { written_held_law };

    ghost write_counts_nothing = { λ s number start ws. refl };

    ghost write_names_no_question = { λ s number start ws. refl };

    ghost write_records_nothing = { λ s number start ws. refl };

    ghost refused_is = { λ s. refl };

    ghost latest_is = { λ s. refl };

    ghost write_constant = { λ s number start ws. refl };

    fn memory_type_count(&self) -> usize {
        self.types.len()
    }

    fn memory_type(&self, index: usize) -> MemoryTypeInfo {
        self.types[index]
    }

    fn heap_count(&self) -> usize {
        self.heaps.len()
    }

    fn heap(&self, index: usize) -> MemoryHeap {
        self.heaps[index]
    }

    fn buffer_image_granularity(&self) -> u64 {
        self.granularity
    }

    fn refusals(&self) -> u64 {
        self.journal.refusals()
    }

    fn allocate_memory(&mut self, info: &MemoryAllocateInfo) -> Result<DeviceMemory, i32>
        ensures number { IfOk result (λ memory. (memory.0 ≢ 0)
            × (get (held_of self.old) memory.0 ≡ None)) }
        ensures grants { IfOk result (λ memory. held_of self.new
            ≡ insert (held_of self.old) memory.0 (new_entry info.now)) }
        ensures refuses { OnErr result (held_of self.new ≡ held_of self.old) }
        ensures counts_no_grant { OnOk result (refused_of self.new ≡ refused_of self.old) }
        ensures counts_refusal { OnErr result (refused_of self.new ≡ raised (refused_of self.old)) }
        ensures names_question { latest_of self.new ≡ Some info.now }
        ensures recorded { history_of self.new ≡ AskedMemory info.now result ∷ history_of self.old }
        ensures constant { properties_of self.new ≡ properties_of self.old }
        ensures next_number { IfOk result (λ memory. memory.0 ≡ (plan_of self.old).issued + 1) }
        ensures by_plan { IfSome (planned_code (plan_of self.old) info.now.size)
            (λ code. result ≡ Err code) }
        ensures by_host { planned_code (plan_of self.old) info.now.size ≡ None
            → IfErr result (λ code. code ≡ out_of_host_memory) }
        ensures plan_granted { OnOk result (plan_of self.new ≡ given (plan_of self.old)) }
        ensures plan_refused { OnErr result (plan_of self.new ≡ asked (plan_of self.old)) }
    {
        let refusal = self.journal.next_refusal();
        let answer = match code_for_memory(refusal, info.size, self.journal.limit()) {
            Some(code) => Err(code),
            None => match self.memories.add(info) {
                Ok(number) => Ok(DeviceMemory(number)),
                Err(_) => Err(OUT_OF_HOST_MEMORY),
            },
        };
        self.journal.asked_memory(info, answer);
        answer
    }

    fn map_memory(&mut self, memory: DeviceMemory) -> Result<bool, i32>
        requires { IsUnmapped (held_of self.old) memory.0 }
        ensures grants { IfOk result (λ mapped. mapped ≡ true
            → (xs : List ℕ) × (length xs ≡ size_of (held_of self.old) memory.0)
            × (held_of self.new ≡ mapped_with (held_of self.old) memory.0 xs)) }
        ensures fits_host { IfOk result
            (λ mapped. mapped ≡ true → size_of (held_of self.old) memory.0 < 2 ^ 63) }
        ensures refuses_null { IfOk result
            (λ mapped. mapped ≡ false → held_of self.new ≡ held_of self.old) }
        ensures refuses { OnErr result (held_of self.new ≡ held_of self.old) }
        ensures counts_no_grant { IfOk result
            (λ mapped. mapped ≡ true → refused_of self.new ≡ refused_of self.old) }
        ensures counts_null { IfOk result
            (λ mapped. mapped ≡ false → refused_of self.new ≡ raised (refused_of self.old)) }
        ensures counts_refusal { OnErr result (refused_of self.new ≡ raised (refused_of self.old)) }
        ensures names_no_question { latest_of self.new ≡ latest_of self.old }
        ensures recorded { history_of self.new ≡ AskedMapping memory result ∷ history_of self.old }
        ensures constant { properties_of self.new ≡ properties_of self.old }
        ensures zeros { IfOk result (λ mapped. mapped ≡ true
            → held_of self.new ≡ mapped_with (held_of self.old) memory.0
            (replicate (size_of (held_of self.old) memory.0) 0)) }
        ensures by_plan { IfSome (planned_answer (plan_of self.old)
            (size_of (held_of self.old) memory.0)) (λ answer. result ≡ answer) }
        ensures by_host { planned_answer (plan_of self.old) (size_of (held_of self.old) memory.0)
            ≡ None → IfErr result (λ code. code ≡ out_of_host_memory) }
        ensures null_by_plan { planned_answer (plan_of self.old)
            (size_of (held_of self.old) memory.0) ≡ None → result ≢ Ok false }
        ensures plan { plan_of self.new ≡ asked (plan_of self.old) }
    {
        let refusal = self.journal.next_refusal();
        let size = self.memories.size(memory.0);
        let answer = match answer_for_mapping(refusal, size) {
            Some(answer) => answer,
            None => match vec![in self.alloc; 0u8; size as usize] {
                Ok(bytes) => {
                    self.memories.map(memory.0, bytes);
                    Ok(true)
                }
                Err(_) => Err(OUT_OF_HOST_MEMORY),
            },
        };
        self.journal.asked_mapping(memory, answer);
        answer
    }

    fn unmap_memory(&mut self, memory: DeviceMemory)
        ensures gives_back { held_of self.new ≡ unmapped (held_of self.old) memory.0 }
        ensures counts_nothing { refused_of self.new ≡ refused_of self.old }
        ensures names_no_question { latest_of self.new ≡ latest_of self.old }
        ensures recorded { history_of self.new ≡ Unmapped memory ∷ history_of self.old }
        ensures constant { properties_of self.new ≡ properties_of self.old }
        ensures plan { plan_of self.new ≡ plan_of self.old }
    {
        self.memories.unmap(memory.0);
        self.journal.unmapped(memory);
    }

    fn free_memory(&mut self, memory: DeviceMemory)
        ensures gives_back { held_of self.new ≡ remove (held_of self.old) memory.0 }
        ensures counts_nothing { refused_of self.new ≡ refused_of self.old }
        ensures names_no_question { latest_of self.new ≡ latest_of self.old }
        ensures recorded { history_of self.new ≡ Freed memory ∷ history_of self.old }
        ensures constant { properties_of self.new ≡ properties_of self.old }
        ensures plan { plan_of self.new ≡ plan_of self.old }
    {
        self.memories.free(memory.0);
        self.journal.freed(memory);
    }

    fn bytes(&self, memory: DeviceMemory, start: u64, len: u64) -> Option<&[u8]> {
        self.memories.part(memory.0, start, len)
    }

    fn range_mut(&mut self, memory: DeviceMemory, start: u64, len: u64) -> &mut [u8] {
        self.memories.part_mut(memory.0, start, len)
    }
}
