//! The device, as a trait with laws.

ghost use Rattle.std.specs.Prelude.{◌≡◌, ◌≢◌, ℕ, ◌^◌, ◌<◌, ◌↔◌, List, ◌∷◌, length, slice_get, Option, Some, None, IsSome, IfSome, IsTrue, IfOk, OnErr, OnOk, true, false, option_copied};
ghost use Rattle.std.specs.Borrow.{sem, Lends, LendsIf, Array, u8 as byte};
ghost use Rattle.std.specs.FinMap.{get, insert, remove};
ghost use Rattle.gpu_device.specs.Properties.{Properties};
ghost use Rattle.gpu_device.specs.Held.{Held, new_entry, size_of, range_of, IsUnmapped, IsWhole, mapped_with, unmapped, with_range, raised};
ghost use Rattle.gpu_device.specs.VulkanHistory.{refused_in, latest_in};
ghost use Rattle.gpu_device.specs.declared.vulkan.event.Event.{Event};
ghost use Rattle.gpu_device.specs.declared.vulkan.event.Event.TheVariants.{AskedMemory, AskedMapping, Unmapped, Freed};
ghost use Rattle.gpu_device.specs.declared.vulkan.types.MemoryAllocateInfo.{MemoryAllocateInfo};

use crate::vulkan::types::{DeviceMemory, MemoryAllocateInfo, MemoryHeap, MemoryTypeInfo};

/// A Vulkan device with its own host memory, as the allocators ask it.
///
/// Its laws, which every caller may rest on:
/// - what it tells of itself never changes;
/// - it holds memories by number, never under 0, and a mapped memory has as many bytes as its size says;
/// - a granted question adds one memory under a number that wasn't held, a granted mapping gives bytes to its own
///   memory, and a refused question changes nothing that is held;
/// - its history names each question with its answer, and each memory and mapping that it was given back, once;
/// - it counts refusals, and nothing else raises the count, which stays at `u64::MAX`;
/// - giving back is never refused, and takes that memory or its bytes alone;
/// - bytes change through a lent slice alone, and there only in the range that was lent.
pub trait VulkanDevice {
    // What it tells of itself.
    ghost properties: { Self → Properties };

    // The memories that it holds, by number.
    ghost held: { Self → Held };

    // All that it was asked and how each question ended, and all that it was given back, newest first.
    ghost history: { Self → List Event };

    // How many questions it refused.
    ghost refused: { Self → ℕ };

    // The latest question for memory, granted or refused.
    ghost latest: { Self → Option MemoryAllocateInfo };

    // The device after bytes were written into a memory, from a place on.
    ghost written: { Self → ℕ → ℕ → List ℕ → Self };

    /// How many memory types there are (`VkPhysicalDeviceMemoryProperties::memoryTypeCount`).
    fn memory_type_count(&self) -> usize
        ensures { result ≡ length (properties self.now).types };

    /// A memory type.
    fn memory_type(&self, index: usize) -> MemoryTypeInfo
        requires { index < length (properties self.now).types }
        ensures { slice_get (properties self.now).types index ≡ Some result };

    /// How many heaps there are (`VkPhysicalDeviceMemoryProperties::memoryHeapCount`).
    fn heap_count(&self) -> usize
        ensures { result ≡ length (properties self.now).heaps };

    /// A heap.
    fn heap(&self, index: usize) -> MemoryHeap
        requires { index < length (properties self.now).heaps }
        ensures { slice_get (properties self.now).heaps index ≡ Some result };

    /// The size in bytes of the pages that linear and other resources don't share
    /// (`VkPhysicalDeviceLimits::bufferImageGranularity`).
    fn buffer_image_granularity(&self) -> u64
        ensures { result ≡ (properties self.now).granularity };

    /// How many questions were refused. The count stays at `u64::MAX`.
    fn refusals(&self) -> u64
        ensures { result ≡ refused self.now };

    /// Asks for a memory (`vkAllocateMemory`). The error is Vulkan's code, or the device's own where the host refused it
    /// memory.
    fn allocate_memory(&mut self, info: &MemoryAllocateInfo) -> Result<DeviceMemory, i32>
        ensures number { IfOk result (λ memory. (memory.0 ≢ 0)
            × (get (held self.old) memory.0 ≡ None)) }
        ensures grants { IfOk result (λ memory. held self.new
            ≡ insert (held self.old) memory.0 (new_entry info.now)) }
        ensures refuses { OnErr result (held self.new ≡ held self.old) }
        ensures counts_no_grant { OnOk result (refused self.new ≡ refused self.old) }
        ensures counts_refusal { OnErr result (refused self.new ≡ raised (refused self.old)) }
        ensures names_question { latest self.new ≡ Some info.now }
        ensures recorded { history self.new ≡ AskedMemory info.now result ∷ history self.old }
        ensures constant { properties self.new ≡ properties self.old };

    /// Asks for a memory's bytes (`vkMapMemory` over the whole of it). `false` is a null pointer, which is a refusal too.
    /// More bytes than a slice can have are always refused.
    fn map_memory(&mut self, memory: DeviceMemory) -> Result<bool, i32>
        requires { IsUnmapped (held self.old) memory.0 }
        ensures grants { IfOk result (λ mapped. mapped ≡ true
            → (xs : List ℕ) × (length xs ≡ size_of (held self.old) memory.0)
            × (held self.new ≡ mapped_with (held self.old) memory.0 xs)) }
        ensures fits_host { IfOk result
            (λ mapped. mapped ≡ true → size_of (held self.old) memory.0 < 2 ^ 63) }
        ensures refuses_null { IfOk result
            (λ mapped. mapped ≡ false → held self.new ≡ held self.old) }
        ensures refuses { OnErr result (held self.new ≡ held self.old) }
        ensures counts_no_grant { IfOk result
            (λ mapped. mapped ≡ true → refused self.new ≡ refused self.old) }
        ensures counts_null { IfOk result
            (λ mapped. mapped ≡ false → refused self.new ≡ raised (refused self.old)) }
        ensures counts_refusal { OnErr result (refused self.new ≡ raised (refused self.old)) }
        ensures names_no_question { latest self.new ≡ latest self.old }
        ensures recorded { history self.new ≡ AskedMapping memory result ∷ history self.old }
        ensures constant { properties self.new ≡ properties self.old };

    /// Takes a memory's bytes away (`vkUnmapMemory`), also where it isn't mapped or isn't held. Never refused.
    fn unmap_memory(&mut self, memory: DeviceMemory)
        ensures gives_back { held self.new ≡ unmapped (held self.old) memory.0 }
        ensures counts_nothing { refused self.new ≡ refused self.old }
        ensures names_no_question { latest self.new ≡ latest self.old }
        ensures recorded { history self.new ≡ Unmapped memory ∷ history self.old }
        ensures constant { properties self.new ≡ properties self.old };

    /// Gives a memory back (`vkFreeMemory`), also where it isn't held. Never refused.
    fn free_memory(&mut self, memory: DeviceMemory)
        ensures gives_back { held self.new ≡ remove (held self.old) memory.0 }
        ensures counts_nothing { refused self.new ≡ refused self.old }
        ensures names_no_question { latest self.new ≡ latest self.old }
        ensures recorded { history self.new ≡ Freed memory ∷ history self.old }
        ensures constant { properties self.new ≡ properties self.old };

    /// The bytes of a range, where the memory is held and mapped and the range lies inside.
    fn bytes(&self, memory: DeviceMemory, start: u64, len: u64) -> Option<&[u8]>
        ensures { option_copied result ≡ range_of (held self.now) memory.0 start len };

    /// Lends the bytes of a range to be written. `bytes` tells whether the range is there.
    fn range_mut(&mut self, memory: DeviceMemory, start: u64, len: u64) -> &mut [u8]
        requires { IsSome (range_of (held self.old) memory.0 start len) }
        ensures value { range_of (held self.old) memory.0 start len ≡ Some result.now }
        ensures* writes_back { sem 𝓛 (Lends Self.row (Array byte 0) self.entry result
            (written self.old memory.0 start)) };

    // No memory is held under the number 0, which is null.
    ghost no_null: { (d : Self) → get (held d) 0 ≡ None };

    // A mapped memory has as many bytes as its size says.
    ghost whole: { (d : Self) (number : ℕ) → IsWhole (get (held d) number) };

    // A write changes that range of that memory alone.
    ghost write_leaves_others: { (d : Self) (number start : ℕ) (ws : List ℕ)
        → held (written d number start ws) ≡ with_range (held d) number start ws };

    // A write is no question.
    ghost write_counts_nothing: { (d : Self) (number start : ℕ) (ws : List ℕ)
        → refused (written d number start ws) ≡ refused d };

    ghost write_names_no_question: { (d : Self) (number start : ℕ) (ws : List ℕ)
        → latest (written d number start ws) ≡ latest d };

    ghost write_records_nothing: { (d : Self) (number start : ℕ) (ws : List ℕ)
        → history (written d number start ws) ≡ history d };

    ghost write_constant: { (d : Self) (number start : ℕ) (ws : List ℕ)
        → properties (written d number start ws) ≡ properties d };

    // The count of refusals and the latest question are those of the history.
    ghost refused_is: { (d : Self) → refused d ≡ refused_in (history d) };

    ghost latest_is: { (d : Self) → latest d ≡ latest_in (history d) };

    /// The device's own reference, handed back, and whether `bytes` gives a range. It changes nothing.
    final fn with_range_found(
        &mut self,
        memory: DeviceMemory,
        start: u64,
        len: u64,
    ) -> (&mut Self, bool)
        ensures same_reference { result.0.ghost_name ≡ self.entry.ghost_name }
        ensures unchanged { result.0.now ≡ self.old }
        ensures found { IsTrue result.1 ↔ IsSome (range_of (held self.old) memory.0 start len) }
    {
        let found = self.bytes(memory, start, len).is_some();
        (self, found)
    }

    /// Lends the bytes of a range to be written, exactly where `bytes` gives it; else the device stays as it is.
    final fn bytes_mut(&mut self, memory: DeviceMemory, start: u64, len: u64) -> Option<&mut [u8]>
        // once the slice has ended, what it then holds stands in that range; at None nothing has changed
        ensures* lends { sem 𝓛 (LendsIf Self.row (Array byte 0) self.entry result
            (written self.old memory.0 start) self.old) }
        ensures inside { IsSome result ↔ IsSome (range_of (held self.old) memory.0 start len) }
        ensures value { IfSome result (λ slice. range_of (held self.old) memory.0 start len
            ≡ Some slice.now) }
    {
        let (device, found) = self.with_range_found(memory, start, len);
        if found {
            Some(device.range_mut(memory, start, len))
        } else {
            None
        }
    }
}
