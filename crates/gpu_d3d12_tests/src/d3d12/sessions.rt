//! A session's lists of commands, with ample memory.

use super::resources::{IN_STATE, PROPERTIES};
use super::*;
use gpu_device::d3d12::HeapFlags;
use gpu_run::d3d12::{Command, Memory, Other, Reply, Request, Session, WantedResource};
use std::alloc::AllocError;

/// Asks for a buffer of 65,536 bytes with this memory.
fn create(alloc: Global, key: u64, name: String, memory: Memory) -> Command {
    Command::Other(Other::Create {
        key,
        wanted: WantedResource {
            name,
            location: MemoryLocation::GpuOnly,
            category: ResourceCategory::Buffer,
            desc: buffer(65536),
            castable_formats: Vec::new(alloc),
            clear_value: None,
            initial: IN_STATE,
            memory,
        },
    })
}

/// Asks for a piece.
fn piece(name: String) -> Request {
    Request {
        size: 512,
        alignment: 256,
        location: MemoryLocation::GpuOnly,
        category: ResourceCategory::Buffer,
        name,
    }
}

/// Asks for a second place of such a piece.
fn moved(key: u64, to: u64, name: String) -> Command {
    Command::Move {
        key,
        to,
        request: piece(name),
    }
}

/// Names of this text.
fn names(alloc: Global) -> std::result::Result<[String; 8], AllocError> {
    Ok([
        String::from_str(alloc, "a")?,
        String::from_str(alloc, "a")?,
        String::from_str(alloc, "a")?,
        String::from_str(alloc, "a")?,
        String::from_str(alloc, "b")?,
        String::from_str(alloc, "buffer")?,
        String::from_str(alloc, "buffer")?,
        String::from_str(alloc, "buffer")?,
    ])
}

/// A piece, and moves of it: there is no block ahead, its own number is taken, and another stands for nothing. Then two
/// resources, what is told of them, and all but the committed resource given back.
fn commands(alloc: Global, names: [String; 8]) -> [Command; 16] {
    let [none_ahead, taken, unbound, a, b, first, second, third] = names;
    let own = Memory::Own(PROPERTIES, HeapFlags(0));
    [
        Command::Alloc {
            key: 7,
            request: piece(a),
        },
        moved(7, 8, none_ahead),
        moved(7, 7, taken),
        moved(8, 9, unbound),
        create(alloc, 7, first, Memory::Placed),
        create(alloc, 8, second, own),
        create(alloc, 8, third, Memory::Placed),
        Command::Other(Other::Committed { memory_type: 0 }),
        Command::Report,
        Command::Other(Other::Leaks),
        Command::Capacity,
        Command::Other(Other::Rename { key: 7, name: b }),
        Command::Other(Other::Release { key: 7 }),
        Command::Other(Other::Release { key: 7 }),
        Command::Free { key: 7 },
        Command::SetBudget {
            memory_type: 3,
            budget: None,
        },
    ]
}

/// A letter for what a reply says.
fn letter(reply: &Reply) -> char {
    match reply {
        Reply::Allocated(_) => 'g',
        Reply::Made(_) => 'm',
        Reply::Done => 'd',
        Reply::Leaks(_) => 'l',
        Reply::Report(_) => 'r',
        Reply::Capacity(_) => 'c',
        Reply::Committed(_) => 's',
        Reply::NoPlace => 'n',
        Reply::Busy => 'b',
        Reply::Unbound => 'u',
        Reply::Error(_) => 'e',
    }
}

/// Whether the replies to these commands say this.
fn replies_are(session: &mut Session<SimD3D12>, commands: &[Command], want: &[char]) -> bool {
    match session.run(&Discard, commands) {
        Err(_) => false,
        Ok(replies) => {
            for (reply, want) in replies.iter().zip(want) {
                if letter(reply) != *want {
                    return false;
                }
            }
            replies.len() == want.len()
        }
    }
}

const REPLIES: &[char] = &[
    'g', 'n', 'b', 'u', 'm', 'm', 'b', 's', 'r', 'l', 'c', 'd', 'd', 'u', 'd', 'e',
];

/// Whether a session replies so, and its device holds the committed resource at last.
fn session_replies(alloc: Global, commands: &[Command]) -> bool {
    match made(alloc, &[]) {
        Some(allocator) => {
            let mut session = Session::new(alloc, allocator);
            let replied = replies_are(&mut session, commands, REPLIES);
            let held = session.destroy(&Discard).into_device().held();
            replied && held == 1
        }
        None => false,
    }
}

#[test]
fn a_list_of_commands_has_a_reply_each(rt: HostRuntime) {
    let replied = match names(rt.alloc()) {
        Ok(names) => session_replies(rt.alloc(), &commands(rt.alloc(), names)),
        Err(AllocError) => false,
    };
    check(&rt, &[replied]);
}
