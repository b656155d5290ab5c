//! A list of commands to a session of one block, with ample memory. What each command is answered, traces show.

use crate::check;
use gpu_session::block::{Command, Reply, Session};
use log::sink::Discard;
use std::alloc::Global;

/// Whether a session of a block replies to two commands.
fn serves(alloc: Global) -> bool {
    let commands = [Command::Free { key: 1 }, Command::Free { key: 2 }];
    let page: u64 = 1;
    if !page.is_power_of_two() {
        return false;
    }
    let Ok(mut session) = Session::new(alloc, 4096, page) else {
        return false;
    };
    match session.run(alloc, &Discard, &commands) {
        Ok(replies) => matches!(replies.as_slice(), [Reply::Unbound, Reply::Unbound]),
        Err(_) => false,
    }
}

#[test]
fn a_block_serves_a_list_of_commands(rt: HostRuntime) {
    check(&rt, &[serves(rt.alloc())]);
}
