//! What is answered to a line of a trace.

use crate::device::reply as device;
use gpu_block_session::block;
use gpu_block_session::text::reply::write_reply;
use std::fmt;

/// The answer to a line of a trace.
#[derive(Drop)]
pub enum Reply {
    Block(block::Reply),
    Device(device::Reply),
}

impl fmt::Display for Reply {
    ghost use Rattle.std.specs.Prelude.{Some};
    ghost use Rattle.gpu_trace_text.specs.Reply.{reply_text};

    ghost output = { λ r. Some (reply_text r) };

    fn fmt<W: fmt::Write>(&self, f: &mut fmt::Formatter<W>) -> fmt::Result {
        match self {
            Reply::Block(reply) => write_reply(reply, f),
            Reply::Device(reply) => write!(f, "{reply}"),
        }
    }
}
