//! Which resources share an allocation, and the memory of a heap.

use crate::frame::{frame, resource};
use gpu_plan::{Kind, Memory, MemoryNeeds, memory_for, sets_of};
use std::test::Fail;

/// Memory of these types.
fn needs(memory_type_bits: u32) -> MemoryNeeds {
    MemoryNeeds {
        memory_type_bits,
        dedicated: false,
    }
}

/// Memory of these types for one resource alone.
fn own(memory_type_bits: u32) -> MemoryNeeds {
    MemoryNeeds {
        memory_type_bits,
        dedicated: true,
    }
}

// Set 0 may have memory types 0, 1 and 2, then 1 and 2, then 2 alone; set 1 has 0 and 3, then 3.
#[test]
fn a_resource_joins_the_first_set_with_which_it_shares_a_type(rt: HostRuntime) -> Result<(), Fail> {
    let resources = [
        needs(0b0111),
        needs(0b0110),
        needs(0b1001),
        needs(0b1100),
        own(0b1111),
        needs(0b0010),
        needs(0b1010),
        needs(0b0100),
    ];
    let sets = sets_of(rt.alloc(), &resources)?;
    assert_eq!(rt; sets.as_slice(), [0, 0, 1, 0, 2, 3, 1, 0].as_slice());
    Ok(())
}

#[test]
fn a_resource_without_a_type_has_a_set_of_its_own(rt: HostRuntime) -> Result<(), Fail> {
    let sets = sets_of(rt.alloc(), &[needs(0), needs(0), needs(1)])?;
    assert_eq!(rt; sets.as_slice(), [0, 1, 2].as_slice());
    let sets = sets_of(rt.alloc(), &[])?;
    assert!(rt; sets.is_empty());
    Ok(())
}

#[test]
fn memory_of_one_kind_is_as_large_as_its_heap(rt: HostRuntime) {
    let linear = [
        resource(100, 8, Kind::Linear, 0, 0),
        resource(40, 16, Kind::Linear, 0, 0),
        resource(4, 4, Kind::Linear, 1, 1),
    ];
    let expected = Memory {
        size: 144,
        alignment: 16,
        kind: Kind::Linear,
    };
    assert_eq!(rt; memory_for(&linear, 144, 1024), Some(expected));
    let optimal = [resource(100, 8, Kind::Optimal, 0, 0)];
    let expected = Memory {
        size: u64::MAX,
        alignment: 8,
        kind: Kind::Optimal,
    };
    assert_eq!(rt; memory_for(&optimal, u64::MAX, 1024), Some(expected));
    let none = Memory {
        size: 0,
        alignment: 1,
        kind: Kind::Linear,
    };
    assert_eq!(rt; memory_for(&[], 0, 1024), Some(none));
}

#[test]
fn memory_of_both_kinds_takes_whole_pages(rt: HostRuntime) {
    let frame = frame();
    let pages = |size, alignment| {
        Some(Memory {
            size,
            alignment,
            kind: Kind::Optimal,
        })
    };
    assert_eq!(rt; memory_for(&frame, 320, 64), pages(320, 64));
    assert_eq!(rt; memory_for(&frame, 321, 64), pages(384, 64));
    // its greatest alignment is 16
    assert_eq!(rt; memory_for(&frame, 320, 4), pages(320, 16));
    assert_eq!(rt;
        memory_for(&frame, u64::MAX - 1023, 1024),
        pages(u64::MAX - 1023, 1024)
    );
    assert_eq!(rt; memory_for(&frame, u64::MAX - 1022, 1024), None);
}
