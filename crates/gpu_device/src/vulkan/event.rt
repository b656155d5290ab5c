//! What a Vulkan device was asked and was given back.

use crate::refusal::Refusal;
use crate::vulkan::types::{DeviceMemory, MemoryAllocateInfo};

/// A call that asks or gives back, and how a question ended.
#[derive(Clone, Copy, Debug, PartialEq, Eq)]
pub enum Event {
    /// The question of this number, the first being 1, is to be refused so. Only a simulated device has such entries: they are its
    /// script, and come before all questions.
    Scripted(u64, Refusal),
    /// Memory of more bytes is to be refused. Only a simulated device has such an entry, beside its script.
    Limited(u64),
    /// `vkAllocateMemory`, and its answer.
    AskedMemory(MemoryAllocateInfo, Result<DeviceMemory, i32>),
    /// `vkMapMemory`, and its answer; `Ok(false)` is a null pointer.
    AskedMapping(DeviceMemory, Result<bool, i32>),
    /// `vkUnmapMemory`.
    Unmapped(DeviceMemory),
    /// `vkFreeMemory`.
    Freed(DeviceMemory),
}
