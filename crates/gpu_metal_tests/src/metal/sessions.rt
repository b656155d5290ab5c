//! A session's lists of commands, with ample memory.

use super::*;
use gpu_run::metal::{Command, Other, Reply, Request, Session};
use std::alloc::AllocError;

/// Asks for 100 bytes.
fn piece(name: String) -> Request {
    Request {
        size: 100,
        alignment: 4,
        location: MemoryLocation::GpuOnly,
        name,
    }
}

/// Asks for a second place of such a piece.
fn moved(key: u64, to: u64, name: String) -> Command {
    Command::Move {
        key,
        to,
        request: piece(name),
    }
}

/// Names of this text.
fn names(alloc: Global) -> std::result::Result<[String; 4], AllocError> {
    Ok([
        String::from_str(alloc, "a")?,
        String::from_str(alloc, "a")?,
        String::from_str(alloc, "a")?,
        String::from_str(alloc, "a")?,
    ])
}

/// A piece, and moves of it: there is no block ahead, its own number is taken, and another stands for nothing. Then the heaps,
/// the set committed, the report, a budget, and the piece freed.
fn commands(names: [String; 4]) -> [Command; 10] {
    let [first, second, third, fourth] = names;
    [
        Command::Alloc {
            key: 7,
            request: piece(first),
        },
        moved(7, 8, second),
        moved(7, 7, third),
        moved(8, 9, fourth),
        Command::Other(Other::Heaps),
        Command::Other(Other::Commit),
        Command::Report,
        Command::SetBudget {
            memory_type: 3,
            budget: None,
        },
        Command::Free { key: 7 },
        Command::Free { key: 7 },
    ]
}

/// The first letter of what a reply says.
fn letter(reply: &Reply) -> char {
    match reply {
        Reply::Allocated(_) => 'g',
        Reply::Done => 'd',
        Reply::Heaps(_) => 'h',
        Reply::Report(_) => 'r',
        Reply::Capacity(_) => 'c',
        Reply::NoPlace => 'n',
        Reply::Busy => 'b',
        Reply::Unbound => 'u',
        Reply::Error(_) => 'e',
    }
}

/// Whether the replies to these commands say this.
fn replies_are(session: &mut Session<SimMetal>, commands: &[Command], want: &[char]) -> bool {
    match session.run(&Discard, commands) {
        Err(_) => false,
        Ok(replies) => {
            for (reply, want) in replies.iter().zip(want) {
                if letter(reply) != *want {
                    return false;
                }
            }
            replies.len() == want.len()
        }
    }
}

/// Whether a session replies so, and its device holds the residency set at last.
fn session_replies(alloc: Global, commands: &[Command]) -> bool {
    match made(alloc, true, &[]) {
        Some(allocator) => {
            let mut session = Session::new(alloc, allocator);
            let want = ['g', 'n', 'b', 'u', 'h', 'd', 'r', 'e', 'd', 'u'];
            let replied = replies_are(&mut session, commands, &want);
            let held = session.destroy().held();
            replied && held == 1
        }
        None => false,
    }
}

#[test]
fn a_list_of_commands_has_a_reply_each(rt: HostRuntime) {
    let replied = match names(rt.alloc()) {
        Ok(names) => session_replies(rt.alloc(), &commands(names)),
        Err(AllocError) => false,
    };
    check(&rt, &[replied]);
}
