//! The device, as a trait with laws.

ghost use Rattle.std.specs.Prelude.{◌≡◌, ℕ, ℤ, List, ◌∷◌, length, Option, Some, None, option_copied, option_map};
ghost use Rattle.std.specs.FinMap.{get};
ghost use Rattle.gpu_device.specs.D3D12.{Properties, Held, Heap, Committed, Placed, told_size, told_size1, granted_heap, granted_resource, without_heap, without_resource};
ghost use Rattle.gpu_device.specs.Granted.{IsNew, with_granted, counted};
ghost use Rattle.gpu_device.specs.D3D12History.{refused_in, latest_heap_in, latest_resource_in, request_formats, request_clear, request_memory};
ghost use Rattle.gpu_device.specs.declared.d3d12.event.Event.{Event};
ghost use Rattle.gpu_device.specs.declared.d3d12.event.Event.TheVariants.{AskedHeap, AskedResource, ReleasedHeap, ReleasedResource};
ghost use Rattle.gpu_device.specs.declared.d3d12.event.ResourcePlace.TheVariants.{Own, InHeap};
ghost use Rattle.gpu_device.specs.declared.d3d12.event.ResourceShape.TheVariants.{InState, InLayout};
ghost use Rattle.gpu_device.specs.declared.d3d12.types.ClearValue.{ClearValue};
ghost use Rattle.gpu_device.specs.declared.d3d12.types.HeapDesc.{HeapDesc};
ghost use Rattle.gpu_device.specs.declared.d3d12.types.HeapFlags.{HeapFlags};
ghost use Rattle.gpu_device.specs.declared.d3d12.types.HeapProperties.{HeapProperties};

use crate::d3d12::types::{
    ClearValue, Format, HeapDesc, HeapFlags, HeapProperties, ID3D12Heap, ID3D12Resource,
    ResourceAllocationInfo, ResourceDesc, ResourceDesc1, ResourceHeapTier,
};

/// A DirectX 12 device with its own host memory, as the allocators ask it.
///
/// Its laws, which every caller may rest on:
/// - the heap tier and what it tells of sizes never change;
/// - it holds heaps and resources by number in one map, never under 0; to a call of the other kind a number isn't held;
/// - a granted question adds one entry under a number that wasn't held; a refused one, by an error or by a null answer,
///   changes nothing that is held;
/// - its history names each question, whole, with its answer, and each heap and resource that it was given back, once;
/// - it counts refusals, and nothing else raises the count, which stays at `u64::MAX`;
/// - giving back is never refused, and takes that entry alone; a resource stays when its heap goes;
/// - it names its latest question of each kind, granted or refused: the heap asked for, and of a resource how many
///   castable formats came with it, its clear value, and the heap properties and flags of a committed one.
pub trait D3D12Device {
    // What it tells of itself.
    ghost properties: { Self → Properties };

    // The heaps and resources that it holds, by number.
    ghost held: { Self → Held };

    // All that it was asked and how each question ended, and all that it was given back, newest first.
    ghost history: { Self → List Event };

    // How many questions it refused.
    ghost refused: { Self → ℕ };

    // The latest question for a heap, granted or refused.
    ghost latest_heap: { Self → Option HeapDesc };

    // How many castable formats came with the latest question for a resource, where a list of them came.
    ghost latest_formats: { Self → Option ℕ };

    // The clear value of the latest question for a resource.
    ghost latest_clear: { Self → Option ClearValue };

    // The heap properties and flags of the latest question for a resource, where that was for a committed one.
    ghost latest_memory: { Self → Option (HeapProperties × HeapFlags) };

    // Why it was removed, as it tells at this moment; a question may change it.
    ghost removal_reason: { Self → ℤ };

    /// Whether one heap may hold resources of all kinds (`D3D12_FEATURE_DATA_D3D12_OPTIONS::ResourceHeapTier`), or the
    /// code with which `ID3D12Device::CheckFeatureSupport` failed.
    fn resource_heap_tier(&self) -> Result<ResourceHeapTier, i32>
        ensures { result ≡ (properties self.now).tier };

    /// What a resource takes of a heap (`ID3D12Device::GetResourceAllocationInfo`).
    fn resource_allocation_info(&self, desc: &ResourceDesc) -> ResourceAllocationInfo
        ensures { result ≡ (properties self.now).allocation_info desc.now };

    /// What a resource with castable formats takes of a heap (`ID3D12Device12::GetResourceAllocationInfo3`). An empty
    /// slice means that no formats are given.
    fn resource_allocation_info3(
        &self,
        desc: &ResourceDesc1,
        castable_formats: &[Format],
    ) -> ResourceAllocationInfo
        ensures { result ≡ (properties self.now).allocation_info3 desc.now castable_formats.now };

    /// Why the device was removed (`ID3D12Device::GetDeviceRemovedReason`).
    fn device_removed_reason(&self) -> i32
        ensures { result ≡ removal_reason self.now };

    /// How many questions were refused. The count stays at `u64::MAX`.
    fn refusals(&self) -> u64
        ensures { result ≡ refused self.now };

    /// Asks for a heap (`ID3D12Device::CreateHeap`). The error is Direct3D's code, or the device's own where the host
    /// refused it memory; `None` is a null pointer without an error, which is a refusal too.
    fn create_heap(&mut self, desc: &HeapDesc) -> Result<Option<ID3D12Heap>, i32>
        ensures number { IsNew (held self.old) (granted_heap result) }
        ensures holds { held self.new ≡ with_granted (held self.old) (granted_heap result)
            (Heap desc.now) }
        ensures counts { refused self.new ≡ counted (refused self.old) (granted_heap result) }
        ensures names_heap { latest_heap self.new ≡ Some desc.now }
        ensures names_no_formats { latest_formats self.new ≡ latest_formats self.old }
        ensures names_no_clear_value { latest_clear self.new ≡ latest_clear self.old }
        ensures names_no_memory { latest_memory self.new ≡ latest_memory self.old }
        ensures recorded { history self.new ≡ AskedHeap desc.now result ∷ history self.old }
        ensures constant { properties self.new ≡ properties self.old };

    /// Asks for a resource in memory of its own (`ID3D12Device::CreateCommittedResource`), in a state as
    /// `D3D12_RESOURCE_STATES` numbers it.
    fn create_committed_resource(
        &mut self,
        heap_properties: &HeapProperties,
        heap_flags: HeapFlags,
        desc: &ResourceDesc,
        initial_state: u32,
        clear_value: Option<&ClearValue>,
    ) -> Result<Option<ID3D12Resource>, i32>
        ensures number { IsNew (held self.old) (granted_resource result) }
        ensures holds { held self.new ≡ with_granted (held self.old) (granted_resource result)
            (Committed (told_size (properties self.old) desc.now)) }
        ensures counts { refused self.new ≡ counted (refused self.old) (granted_resource result) }
        ensures names_no_heap { latest_heap self.new ≡ latest_heap self.old }
        ensures names_formats { latest_formats self.new ≡ None }
        ensures names_clear_value { latest_clear self.new ≡ option_copied clear_value.entry }
        ensures names_memory { latest_memory self.new ≡ Some (heap_properties.now, heap_flags) }
        ensures recorded { history self.new ≡ AskedResource (record {
          place = Own heap_properties.now heap_flags;
          shape = InState desc.now initial_state;
          clear_value = option_copied clear_value.entry;
        }) result ∷ history self.old }
        ensures constant { properties self.new ≡ properties self.old };

    /// Asks for a resource in memory of its own (`ID3D12Device10::CreateCommittedResource3`), in a layout as
    /// `D3D12_BARRIER_LAYOUT` numbers it. `None` for the formats is an earlier device, which takes no list of them.
    fn create_committed_resource3(
        &mut self,
        heap_properties: &HeapProperties,
        heap_flags: HeapFlags,
        desc: &ResourceDesc1,
        initial_layout: u32,
        clear_value: Option<&ClearValue>,
        castable_formats: Option<&[Format]>,
    ) -> Result<Option<ID3D12Resource>, i32>
        ensures number { IsNew (held self.old) (granted_resource result) }
        ensures holds { held self.new ≡ with_granted (held self.old) (granted_resource result)
            (Committed (told_size1 (properties self.old) desc.now
            (option_copied castable_formats.entry))) }
        ensures counts { refused self.new ≡ counted (refused self.old) (granted_resource result) }
        ensures names_no_heap { latest_heap self.new ≡ latest_heap self.old }
        ensures names_formats { latest_formats self.new
            ≡ option_map length (option_copied castable_formats.entry) }
        ensures names_clear_value { latest_clear self.new ≡ option_copied clear_value.entry }
        ensures names_memory { latest_memory self.new ≡ Some (heap_properties.now, heap_flags) }
        ensures recorded { history self.new ≡ AskedResource (record {
          place = Own heap_properties.now heap_flags;
          shape = InLayout desc.now initial_layout (option_copied castable_formats.entry);
          clear_value = option_copied clear_value.entry;
        }) result ∷ history self.old }
        ensures constant { properties self.new ≡ properties self.old };

    /// Asks for a resource at an offset in bytes in a heap (`ID3D12Device::CreatePlacedResource`), in a state as
    /// `D3D12_RESOURCE_STATES` numbers it.
    fn create_placed_resource(
        &mut self,
        heap: ID3D12Heap,
        offset: u64,
        desc: &ResourceDesc,
        initial_state: u32,
        clear_value: Option<&ClearValue>,
    ) -> Result<Option<ID3D12Resource>, i32>
        ensures number { IsNew (held self.old) (granted_resource result) }
        ensures holds { held self.new ≡ with_granted (held self.old) (granted_resource result)
            (Placed heap.0 offset (told_size (properties self.old) desc.now)) }
        ensures counts { refused self.new ≡ counted (refused self.old) (granted_resource result) }
        ensures names_no_heap { latest_heap self.new ≡ latest_heap self.old }
        ensures names_formats { latest_formats self.new ≡ None }
        ensures names_clear_value { latest_clear self.new ≡ option_copied clear_value.entry }
        ensures names_memory { latest_memory self.new ≡ None }
        ensures recorded { history self.new ≡ AskedResource (record {
          place = InHeap heap offset;
          shape = InState desc.now initial_state;
          clear_value = option_copied clear_value.entry;
        }) result ∷ history self.old }
        ensures constant { properties self.new ≡ properties self.old };

    /// Asks for a resource at an offset in bytes in a heap (`ID3D12Device10::CreatePlacedResource2`), in a layout as
    /// `D3D12_BARRIER_LAYOUT` numbers it. `None` for the formats is an earlier device, which takes no list of them.
    fn create_placed_resource2(
        &mut self,
        heap: ID3D12Heap,
        offset: u64,
        desc: &ResourceDesc1,
        initial_layout: u32,
        clear_value: Option<&ClearValue>,
        castable_formats: Option<&[Format]>,
    ) -> Result<Option<ID3D12Resource>, i32>
        ensures number { IsNew (held self.old) (granted_resource result) }
        ensures holds { held self.new ≡ with_granted (held self.old) (granted_resource result)
            (Placed heap.0 offset (told_size1 (properties self.old) desc.now
            (option_copied castable_formats.entry))) }
        ensures counts { refused self.new ≡ counted (refused self.old) (granted_resource result) }
        ensures names_no_heap { latest_heap self.new ≡ latest_heap self.old }
        ensures names_formats { latest_formats self.new
            ≡ option_map length (option_copied castable_formats.entry) }
        ensures names_clear_value { latest_clear self.new ≡ option_copied clear_value.entry }
        ensures names_memory { latest_memory self.new ≡ None }
        ensures recorded { history self.new ≡ AskedResource (record {
          place = InHeap heap offset;
          shape = InLayout desc.now initial_layout (option_copied castable_formats.entry);
          clear_value = option_copied clear_value.entry;
        }) result ∷ history self.old }
        ensures constant { properties self.new ≡ properties self.old };

    /// Gives a heap back (`ID3D12Heap::Release`), also where the number is no heap's. Never refused.
    fn release_heap(&mut self, heap: ID3D12Heap)
        ensures gives_back { held self.new ≡ without_heap (held self.old) heap.0 }
        ensures counts_nothing { refused self.new ≡ refused self.old }
        ensures names_no_heap { latest_heap self.new ≡ latest_heap self.old }
        ensures names_no_formats { latest_formats self.new ≡ latest_formats self.old }
        ensures names_no_clear_value { latest_clear self.new ≡ latest_clear self.old }
        ensures names_no_memory { latest_memory self.new ≡ latest_memory self.old }
        ensures recorded { history self.new ≡ ReleasedHeap heap ∷ history self.old }
        ensures constant { properties self.new ≡ properties self.old };

    /// Gives a resource back (`ID3D12Resource::Release`), also where the number is no resource's. Never refused.
    fn release_resource(&mut self, resource: ID3D12Resource)
        ensures gives_back { held self.new ≡ without_resource (held self.old) resource.0 }
        ensures counts_nothing { refused self.new ≡ refused self.old }
        ensures names_no_heap { latest_heap self.new ≡ latest_heap self.old }
        ensures names_no_formats { latest_formats self.new ≡ latest_formats self.old }
        ensures names_no_clear_value { latest_clear self.new ≡ latest_clear self.old }
        ensures names_no_memory { latest_memory self.new ≡ latest_memory self.old }
        ensures recorded { history self.new ≡ ReleasedResource resource ∷ history self.old }
        ensures constant { properties self.new ≡ properties self.old };

    // Nothing is held under the number 0, which is null.
    ghost no_null: { (d : Self) → get (held d) 0 ≡ None };

    // The count of refusals and the latest questions are those of the history.
    ghost refused_is: { (d : Self) → refused d ≡ refused_in (history d) };

    ghost latest_heap_is: { (d : Self) → latest_heap d ≡ latest_heap_in (history d) };

    ghost latest_formats_is: { (d : Self)
        → latest_formats d ≡ request_formats (latest_resource_in (history d)) };

    ghost latest_clear_is: { (d : Self)
        → latest_clear d ≡ request_clear (latest_resource_in (history d)) };

    ghost latest_memory_is: { (d : Self)
        → latest_memory d ≡ request_memory (latest_resource_in (history d)) };
}
