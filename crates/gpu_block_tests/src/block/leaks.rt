//! Tests of what reports and leaks show of a block.

use super::calls::Call::{self, Allocated, Frees, Leaks, Reports, Takes, TakesAligned, TakesImage};
use super::calls::{check_dedicated, check_list};

const LEAK_A: &str =
    "leak detected: {\n    memory type: 0\n    memory block: 0\n    chunk: {\n        chunk_id: 2,\n        size: 0x64,\n        offset: 0x0,\n        allocation_type: Linear,\n        name: a\n    }\n}";

const LEAK_B: &str =
    "leak detected: {\n    memory type: 0\n    memory block: 0\n    chunk: {\n        chunk_id: 3,\n        size: 0xdc,\n        offset: 0x64,\n        allocation_type: Linear,\n        name: b\n    }\n}";

const LEAK_IMAGE: &str =
    "leak detected: {\n    memory type: 7\n    memory block: 2\n    chunk: {\n        chunk_id: 2,\n        size: 0x10,\n        offset: 0x0,\n        allocation_type: NonLinear,\n        name: i\n    }\n}";

const LEAK_DEDICATED: &str =
    "leak detected: {\n    memory type: 0\n    memory block: 1\n    dedicated allocation: {\n        size: 0x3e8,\n        name: b\n    }\n}";

#[test]
fn pieces_are_shown_without_padding_and_leaks_with_it(rt: HostRuntime) {
    const CALLS: &[Call] = &[
        Takes(100, "a", (0, 2)),
        TakesAligned(64, 256, "b", (256, 3)),
        Reports("a 0 100;b 256 64;"),
        Allocated(320),
        Leaks((0, 0), &[LEAK_A, LEAK_B]),
        Frees(2),
        Leaks((0, 0), &[LEAK_B]),
        Frees(3),
        Leaks((0, 0), &[]),
    ];
    check_list(&rt, rt.alloc(), 1, CALLS);
}

#[test]
fn leaks_of_a_free_list_name_their_block(rt: HostRuntime) {
    const CALLS: &[Call] = &[TakesImage(16, 1, "i", (0, 2)), Leaks((7, 2), &[LEAK_IMAGE])];
    check_list(&rt, rt.alloc(), 1, CALLS);
}

#[test]
fn leaks_of_a_dedicated_block_name_it(rt: HostRuntime) {
    const CALLS: &[Call] = &[
        Leaks((0, 1), &[]),
        Takes(1000, "b", (0, 1)),
        Leaks((0, 1), &[LEAK_DEDICATED]),
    ];
    check_dedicated(&rt, rt.alloc(), CALLS);
}
