//! A simulated DirectX 12 device.

ghost use Rattle.std.specs.Prelude.{◌≡◌, ◌+◌, [], ◌∷◌, length, refl, Some, None, option_copied, option_map};
ghost use Rattle.std.specs.FinMap.{empty, len as map_len};
ghost use Rattle.gpu_device.specs.D3D12.{Heap, Committed, Placed, told_size, told_size1, granted_heap, granted_resource, without_heap, without_resource};
ghost use Rattle.gpu_device.specs.D3D12History.{scripted, questions_in, request_formats, request_clear, request_memory};
ghost use Rattle.gpu_device.specs.Granted.{IsNew, with_granted, counted};
ghost use Rattle.gpu_device.specs.declared.d3d12.event.Event.TheVariants.{AskedHeap, AskedResource, ReleasedHeap, ReleasedResource};
ghost use Rattle.gpu_device.specs.declared.d3d12.event.ResourcePlace.TheVariants.{Own, InHeap};
ghost use Rattle.gpu_device.specs.declared.d3d12.event.ResourceShape.TheVariants.{InState, InLayout};
ghost use Rattle.gpu_sim_d3d12.specs.Objects.{IsAnswer, entry_of, issued};
ghost use Rattle.gpu_sim_d3d12.specs.Scripted.{EndAsScripted, issued_in};

use crate::objects::{Object, Objects};
use crate::scripted_journal::ScriptedJournal;
use gpu_device::d3d12::{
    ClearValue, D3D12Device, Format, Formats, HeapDesc, HeapFlags, HeapProperties, ID3D12Heap,
    ID3D12Resource, ResourceAllocationInfo, ResourceDesc, ResourceDesc1, ResourceHeapTier,
    ResourcePlace, ResourceRequest, ResourceShape,
};
use gpu_sim_base::{Refusal, rounded_up};
use std::alloc::Global;

/// In bytes (`D3D12_DEFAULT_RESOURCE_PLACEMENT_ALIGNMENT`).
const ALIGNMENT: u64 = 65536;

/// Why a simulated device was removed (`DXGI_ERROR_DEVICE_REMOVED`, 0x887a0005).
const REMOVAL_REASON: i32 = -2005270523;

/// A DirectX 12 device without a GPU: heaps and resources have the numbers 1, 2 and so on, and no number twice. A
/// resource takes its width rounded up to a multiple of 65,536 bytes, at least one. It refuses the questions that its
/// script names by their number, the first question being 1, and what the host refuses it, with code -2147024882. Heaps
/// may lie in any memory, and resources anywhere in a heap: it checks no place.
#[derive(Drop)]
pub struct SimD3D12 {
    tier: Result<ResourceHeapTier, i32>,
    objects: Objects,
    journal: ScriptedJournal,
    ghost numbered: { issued objects ≡ issued_in journal.history },
}

impl SimD3D12 {
    ghost use Rattle.gpu_sim_d3d12.specs.Simulation.{held_of, properties_of, history_of, refused_of, latest_heap_of, latest_resource_of, plan_of, planned, answered};

    /// A device that holds nothing, with its heap tier or the code with which that can't be told. `refusals` names
    /// questions by their number, and of two at one number the first counts.
    pub fn new(
        alloc: Global,
        tier: Result<ResourceHeapTier, i32>,
        refusals: Vec<(u64, Refusal)>,
    ) -> Self
        ensures held { held_of result ≡ empty }
        ensures tier { (properties_of result).tier ≡ tier }
        ensures plan { plan_of result ≡ record {
          script = refusals.items;
          questions = 0;
          issued = 0;
        } }
        ensures refused { refused_of result ≡ 0 }
        ensures history { history_of result ≡ scripted refusals.items }
    {
        SimD3D12 {
            tier,
            objects: Objects::new(alloc),
            journal: ScriptedJournal::new(refusals),
        }
    }

    /// How many heaps and resources it holds.
    pub fn held(&self) -> usize
        ensures { result ≡ map_len (held_of self.now) }
    {
        self.objects.count()
    }

    /// How many questions came, for heaps and for resources, granted or refused. The count stays at `u64::MAX`.
    pub fn questions(&self) -> u64
        ensures plan { result ≡ (plan_of self.now).questions }
        ensures history { result ≡ questions_in (history_of self.now) }
    {
        self.journal.questions()
    }

    /// At any time each question has ended as the script says, with which the history begins, and a grant has the number behind those
    /// before. It does nothing.
    pub fn ends_as_scripted(&self)
        ensures { EndAsScripted (history_of self.now) }
    {
        self.journal.ends_as_scripted();
    }

    /// The latest question for a heap, granted or refused.
    pub fn last_heap(&self) -> Option<HeapDesc>
        ensures { result ≡ latest_heap_of self.now }
    {
        self.journal.last_heap()
    }

    /// The latest question for a resource, granted or refused. Of castable formats it has how many there were.
    pub fn last_resource(&self) -> Option<&ResourceRequest>
        ensures { option_copied result ≡ latest_resource_of self.now }
    {
        self.journal.last_resource()
    }

    /// How many castable formats came with the latest question for a resource, where a list of them came.
    pub fn last_formats(&self) -> Option<usize>
        ensures { result ≡ request_formats (latest_resource_of self.now) }
    {
        match &self.last_resource()?.shape {
            ResourceShape::InState(_, _) => None,
            ResourceShape::InLayout(_, _, formats) => Some(formats.as_ref()?.len()),
        }
    }

    /// The clear value of the latest question for a resource.
    pub fn last_clear(&self) -> Option<ClearValue>
        ensures { result ≡ request_clear (latest_resource_of self.now) }
    {
        self.last_resource()?.clear_value
    }

    /// The heap properties and flags of the latest question for a resource, where that was for a committed one.
    pub fn last_memory(&self) -> Option<(HeapProperties, HeapFlags)>
        ensures { result ≡ request_memory (latest_resource_of self.now) }
    {
        match self.last_resource()?.place {
            ResourcePlace::Own(properties, flags) => Some((properties, flags)),
            ResourcePlace::InHeap(_, _) => None,
        }
    }

    /// Answers a question for a resource.
    fn create_resource(
        &mut self,
        object: Object,
        request: ResourceRequest,
    ) -> Result<Option<ID3D12Resource>, i32>
        ensures number { IsNew (held_of self.old) (granted_resource result) }
        ensures holds { held_of self.new
            ≡ with_granted (held_of self.old) (granted_resource result) (entry_of object) }
        ensures recorded { history_of self.new
            ≡ AskedResource request result ∷ history_of self.old }
        ensures tier { self.new.tier ≡ self.old.tier }
        ensures answer { IsAnswer (λ resource. resource.0) (planned (plan_of self.old))
            ((plan_of self.old).issued + 1) result }
        ensures plan { plan_of self.new ≡ answered (plan_of self.old) (granted_resource result) }
    {
        let refusal = self.journal.next_refusal();
        let answer = match self.objects.hold(object, refusal) {
            Ok(number) => Ok(number.map(ID3D12Resource)),
            Err(code) => Err(code),
        };
        self.journal.asked_resource(request, answer);
        answer
    }
}

impl D3D12Device for SimD3D12 {
    ghost use Rattle.gpu_sim_d3d12.specs.Simulation.{held_of, info_for, properties_of, history_of, refused_of, latest_heap_of, latest_resource_of, removal_reason_of, plan_of, planned, answered};
    ghost use Rattle.gpu_sim_d3d12.specs.SimulationLaws.{no_null as no_null_law};

    ghost properties = { properties_of };

    ghost held = { held_of };

    ghost history = { history_of };

    ghost refused = { refused_of };

    ghost latest_heap = { latest_heap_of };

    ghost latest_formats = { λ s. request_formats (latest_resource_of s) };

    ghost latest_clear = { λ s. request_clear (latest_resource_of s) };

    ghost latest_memory = { λ s. request_memory (latest_resource_of s) };

    ghost removal_reason = { removal_reason_of };

    ghost no_null = { no_null_law };

    ghost refused_is = { λ s. refl };

    ghost latest_heap_is = { λ s. refl };

    ghost latest_formats_is = { λ s. refl };

    ghost latest_clear_is = { λ s. refl };

    ghost latest_memory_is = { λ s. refl };

    fn resource_heap_tier(&self) -> Result<ResourceHeapTier, i32> {
        self.tier
    }

    fn resource_allocation_info(&self, desc: &ResourceDesc) -> ResourceAllocationInfo
        ensures { result ≡ info_for desc.now.width }
    {
        ResourceAllocationInfo {
            size_in_bytes: rounded_up(desc.width, ALIGNMENT),
            alignment: ALIGNMENT,
        }
    }

    fn resource_allocation_info3(
        &self,
        desc: &ResourceDesc1,
        castable_formats: &[Format],
    ) -> ResourceAllocationInfo {
        self.resource_allocation_info(&desc.desc)
    }

    fn device_removed_reason(&self) -> i32 {
        REMOVAL_REASON
    }

    fn refusals(&self) -> u64 {
        self.journal.refusals()
    }

    fn create_heap(&mut self, desc: &HeapDesc) -> Result<Option<ID3D12Heap>, i32>
        ensures number { IsNew (held_of self.old) (granted_heap result) }
        ensures holds { held_of self.new
            ≡ with_granted (held_of self.old) (granted_heap result) (Heap desc.now) }
        ensures counts { refused_of self.new ≡ counted (refused_of self.old) (granted_heap result) }
        ensures names_heap { latest_heap_of self.new ≡ Some desc.now }
        ensures names_no_formats { request_formats (latest_resource_of self.new)
            ≡ request_formats (latest_resource_of self.old) }
        ensures names_no_clear_value { request_clear (latest_resource_of self.new)
            ≡ request_clear (latest_resource_of self.old) }
        ensures names_no_memory { request_memory (latest_resource_of self.new)
            ≡ request_memory (latest_resource_of self.old) }
        ensures recorded { history_of self.new ≡ AskedHeap desc.now result ∷ history_of self.old }
        ensures constant { properties_of self.new ≡ properties_of self.old }
        ensures answer { IsAnswer (λ heap. heap.0) (planned (plan_of self.old))
            ((plan_of self.old).issued + 1) result }
        ensures plan { plan_of self.new ≡ answered (plan_of self.old) (granted_heap result) }
    {
        let refusal = self.journal.next_refusal();
        let answer = match self.objects.hold(Object::Heap(*desc), refusal) {
            Ok(number) => Ok(number.map(ID3D12Heap)),
            Err(code) => Err(code),
        };
        self.journal.asked_heap(desc, answer);
        answer
    }

    fn create_committed_resource(
        &mut self,
        heap_properties: &HeapProperties,
        heap_flags: HeapFlags,
        desc: &ResourceDesc,
        initial_state: u32,
        clear_value: Option<&ClearValue>,
    ) -> Result<Option<ID3D12Resource>, i32>
        ensures number { IsNew (held_of self.old) (granted_resource result) }
        ensures holds { held_of self.new
            ≡ with_granted (held_of self.old) (granted_resource result)
            (Committed (told_size (properties_of self.old) desc.now)) }
        ensures counts { refused_of self.new
            ≡ counted (refused_of self.old) (granted_resource result) }
        ensures names_no_heap { latest_heap_of self.new ≡ latest_heap_of self.old }
        ensures names_formats { request_formats (latest_resource_of self.new) ≡ None }
        ensures names_clear_value { request_clear (latest_resource_of self.new)
            ≡ option_copied clear_value.entry }
        ensures names_memory { request_memory (latest_resource_of self.new)
            ≡ Some (heap_properties.now, heap_flags) }
        ensures recorded { history_of self.new ≡ AskedResource (record {
          place = Own heap_properties.now heap_flags;
          shape = InState desc.now initial_state;
          clear_value = option_copied clear_value.entry;
        }) result ∷ history_of self.old }
        ensures constant { properties_of self.new ≡ properties_of self.old }
        ensures answer { IsAnswer (λ resource. resource.0) (planned (plan_of self.old))
            ((plan_of self.old).issued + 1) result }
        ensures plan { plan_of self.new ≡ answered (plan_of self.old) (granted_resource result) }
    {
        let size = self.resource_allocation_info(desc).size_in_bytes;
        let request = ResourceRequest {
            place: ResourcePlace::Own(*heap_properties, heap_flags),
            shape: ResourceShape::InState(*desc, initial_state),
            clear_value: clear_value.copied(),
        };
        self.create_resource(Object::Committed { size }, request)
    }

    fn create_committed_resource3(
        &mut self,
        heap_properties: &HeapProperties,
        heap_flags: HeapFlags,
        desc: &ResourceDesc1,
        initial_layout: u32,
        clear_value: Option<&ClearValue>,
        castable_formats: Option<&[Format]>,
    ) -> Result<Option<ID3D12Resource>, i32>
        ensures number { IsNew (held_of self.old) (granted_resource result) }
        ensures holds { held_of self.new
            ≡ with_granted (held_of self.old) (granted_resource result)
            (Committed (told_size1 (properties_of self.old) desc.now
            (option_copied castable_formats.entry))) }
        ensures counts { refused_of self.new
            ≡ counted (refused_of self.old) (granted_resource result) }
        ensures names_no_heap { latest_heap_of self.new ≡ latest_heap_of self.old }
        ensures names_formats { request_formats (latest_resource_of self.new)
            ≡ option_map length (option_copied castable_formats.entry) }
        ensures names_clear_value { request_clear (latest_resource_of self.new)
            ≡ option_copied clear_value.entry }
        ensures names_memory { request_memory (latest_resource_of self.new)
            ≡ Some (heap_properties.now, heap_flags) }
        ensures recorded { history_of self.new ≡ AskedResource (record {
          place = Own heap_properties.now heap_flags;
          shape = InLayout desc.now initial_layout (option_copied castable_formats.entry);
          clear_value = option_copied clear_value.entry;
        }) result ∷ history_of self.old }
        ensures constant { properties_of self.new ≡ properties_of self.old }
        ensures answer { IsAnswer (λ resource. resource.0) (planned (plan_of self.old))
            ((plan_of self.old).issued + 1) result }
        ensures plan { plan_of self.new ≡ answered (plan_of self.old) (granted_resource result) }
    {
        let size = self.resource_allocation_info(&desc.desc).size_in_bytes;
        let request = ResourceRequest {
            place: ResourcePlace::Own(*heap_properties, heap_flags),
            shape: ResourceShape::InLayout(
                *desc,
                initial_layout,
                Formats::of_list(castable_formats),
            ),
            clear_value: clear_value.copied(),
        };
        self.create_resource(Object::Committed { size }, request)
    }

    fn create_placed_resource(
        &mut self,
        heap: ID3D12Heap,
        offset: u64,
        desc: &ResourceDesc,
        initial_state: u32,
        clear_value: Option<&ClearValue>,
    ) -> Result<Option<ID3D12Resource>, i32>
        ensures number { IsNew (held_of self.old) (granted_resource result) }
        ensures holds { held_of self.new
            ≡ with_granted (held_of self.old) (granted_resource result)
            (Placed heap.0 offset (told_size (properties_of self.old) desc.now)) }
        ensures counts { refused_of self.new
            ≡ counted (refused_of self.old) (granted_resource result) }
        ensures names_no_heap { latest_heap_of self.new ≡ latest_heap_of self.old }
        ensures names_formats { request_formats (latest_resource_of self.new) ≡ None }
        ensures names_clear_value { request_clear (latest_resource_of self.new)
            ≡ option_copied clear_value.entry }
        ensures names_memory { request_memory (latest_resource_of self.new) ≡ None }
        ensures recorded { history_of self.new ≡ AskedResource (record {
          place = InHeap heap offset;
          shape = InState desc.now initial_state;
          clear_value = option_copied clear_value.entry;
        }) result ∷ history_of self.old }
        ensures constant { properties_of self.new ≡ properties_of self.old }
        ensures answer { IsAnswer (λ resource. resource.0) (planned (plan_of self.old))
            ((plan_of self.old).issued + 1) result }
        ensures plan { plan_of self.new ≡ answered (plan_of self.old) (granted_resource result) }
    {
        let size = self.resource_allocation_info(desc).size_in_bytes;
        let request = ResourceRequest {
            place: ResourcePlace::InHeap(heap, offset),
            shape: ResourceShape::InState(*desc, initial_state),
            clear_value: clear_value.copied(),
        };
        self.create_resource(Object::Placed { heap, offset, size }, request)
    }

    fn create_placed_resource2(
        &mut self,
        heap: ID3D12Heap,
        offset: u64,
        desc: &ResourceDesc1,
        initial_layout: u32,
        clear_value: Option<&ClearValue>,
        castable_formats: Option<&[Format]>,
    ) -> Result<Option<ID3D12Resource>, i32>
        ensures number { IsNew (held_of self.old) (granted_resource result) }
        ensures holds { held_of self.new
            ≡ with_granted (held_of self.old) (granted_resource result)
            (Placed heap.0 offset (told_size1 (properties_of self.old) desc.now
            (option_copied castable_formats.entry))) }
        ensures counts { refused_of self.new
            ≡ counted (refused_of self.old) (granted_resource result) }
        ensures names_no_heap { latest_heap_of self.new ≡ latest_heap_of self.old }
        ensures names_formats { request_formats (latest_resource_of self.new)
            ≡ option_map length (option_copied castable_formats.entry) }
        ensures names_clear_value { request_clear (latest_resource_of self.new)
            ≡ option_copied clear_value.entry }
        ensures names_memory { request_memory (latest_resource_of self.new) ≡ None }
        ensures recorded { history_of self.new ≡ AskedResource (record {
          place = InHeap heap offset;
          shape = InLayout desc.now initial_layout (option_copied castable_formats.entry);
          clear_value = option_copied clear_value.entry;
        }) result ∷ history_of self.old }
        ensures constant { properties_of self.new ≡ properties_of self.old }
        ensures answer { IsAnswer (λ resource. resource.0) (planned (plan_of self.old))
            ((plan_of self.old).issued + 1) result }
        ensures plan { plan_of self.new ≡ answered (plan_of self.old) (granted_resource result) }
    {
        let size = self.resource_allocation_info(&desc.desc).size_in_bytes;
        let request = ResourceRequest {
            place: ResourcePlace::InHeap(heap, offset),
            shape: ResourceShape::InLayout(
                *desc,
                initial_layout,
                Formats::of_list(castable_formats),
            ),
            clear_value: clear_value.copied(),
        };
        self.create_resource(Object::Placed { heap, offset, size }, request)
    }

    fn release_heap(&mut self, heap: ID3D12Heap)
        ensures gives_back { held_of self.new ≡ without_heap (held_of self.old) heap.0 }
        ensures counts_nothing { refused_of self.new ≡ refused_of self.old }
        ensures names_no_heap { latest_heap_of self.new ≡ latest_heap_of self.old }
        ensures names_no_formats { request_formats (latest_resource_of self.new)
            ≡ request_formats (latest_resource_of self.old) }
        ensures names_no_clear_value { request_clear (latest_resource_of self.new)
            ≡ request_clear (latest_resource_of self.old) }
        ensures names_no_memory { request_memory (latest_resource_of self.new)
            ≡ request_memory (latest_resource_of self.old) }
        ensures recorded { history_of self.new ≡ ReleasedHeap heap ∷ history_of self.old }
        ensures constant { properties_of self.new ≡ properties_of self.old }
        ensures plan { plan_of self.new ≡ plan_of self.old }
    {
        self.objects.release_heap(heap.0);
        self.journal.released_heap(heap);
    }

    fn release_resource(&mut self, resource: ID3D12Resource)
        ensures gives_back { held_of self.new ≡ without_resource (held_of self.old) resource.0 }
        ensures counts_nothing { refused_of self.new ≡ refused_of self.old }
        ensures names_no_heap { latest_heap_of self.new ≡ latest_heap_of self.old }
        ensures names_no_formats { request_formats (latest_resource_of self.new)
            ≡ request_formats (latest_resource_of self.old) }
        ensures names_no_clear_value { request_clear (latest_resource_of self.new)
            ≡ request_clear (latest_resource_of self.old) }
        ensures names_no_memory { request_memory (latest_resource_of self.new)
            ≡ request_memory (latest_resource_of self.old) }
        ensures recorded { history_of self.new ≡ ReleasedResource resource ∷ history_of self.old }
        ensures constant { properties_of self.new ≡ properties_of self.old }
        ensures plan { plan_of self.new ≡ plan_of self.old }
    {
        self.objects.release_resource(resource.0);
        self.journal.released_resource(resource);
    }
}
