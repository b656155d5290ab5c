//! What is answered to a line of a Metal trace.

ghost use Rattle.std.specs.Prelude.{◌≡◌, Some};
ghost use Rattle.std.specs.Fmt.{DisplaysOnOk};
ghost use Rattle.gpu_trace_text.specs.MetalCommand.{mode_word};
ghost use Rattle.gpu_trace_text.specs.MetalReply.{heap_line, heaps_text, number_word, listed_text, cache_text, asked_text, served_text};

use crate::device::reply::{write_place_in_heap, write_report};
use gpu_device::metal::{CpuCacheMode, HeapDescriptor, MTLHeap, StorageMode};
use gpu_run::metal::Reply as Told;
use gpu_run::{ErrorNumber, number_of};
use std::fmt;

/// The answer to a line of a Metal trace.
#[derive(Drop)]
pub enum Reply {
    /// The allocator was made.
    Made,
    /// The allocator was not made, or there was no room for the reply itself.
    Refused(ErrorNumber),
    /// What the session answers to a command.
    Served(Told),
    /// The members of the residency set.
    Members(Vec<MTLHeap>),
    /// Its committed members.
    Committed(Vec<MTLHeap>),
    /// There is no residency set.
    NoSet,
    /// How many questions the device was asked, and the latest one for a heap.
    Asked {
        questions: u64,
        heap: Option<(HeapDescriptor, u64)>,
    },
    /// How many heaps and sets the device holds, and how many members the set has.
    Held {
        count: u64,
        members: u64,
    },
}

fn write_heap<W: fmt::Write>(heap: MTLHeap, f: &mut fmt::Formatter<W>) -> fmt::Result
    ensures { DisplaysOnOk W.write_str_gives f.old result (Some (heap_line heap)) f.new }
{
    let number = heap.0;
    writeln!(f, "heap {number}")
}

fn write_heaps<W: fmt::Write>(heaps: &[MTLHeap], f: &mut fmt::Formatter<W>) -> fmt::Result
    ensures { DisplaysOnOk W.write_str_gives f.old result (Some (heaps_text heaps.now)) f.new }
{
    for heap in heaps {
        write_heap(*heap, f)?;
    }
    let count = heaps.len();
    write!(f, "heaps {count}")
}

fn write_number<W: fmt::Write>(heap: MTLHeap, f: &mut fmt::Formatter<W>) -> fmt::Result
    ensures { DisplaysOnOk W.write_str_gives f.old result (Some (number_word heap)) f.new }
{
    let number = heap.0;
    write!(f, " {number}")
}

/// How many heaps these are, and their numbers.
fn write_listed<W: fmt::Write>(heaps: &[MTLHeap], f: &mut fmt::Formatter<W>) -> fmt::Result
    ensures { DisplaysOnOk W.write_str_gives f.old result (Some (listed_text heaps.now)) f.new }
{
    let count = heaps.len();
    write!(f, "{count}")?;
    for heap in heaps {
        write_number(*heap, f)?;
    }
    Ok(())
}

fn write_mode<W: fmt::Write>(mode: StorageMode, f: &mut fmt::Formatter<W>) -> fmt::Result
    ensures { DisplaysOnOk W.write_str_gives f.old result (Some (mode_word mode)) f.new }
{
    match mode {
        StorageMode::Shared => write!(f, "shared"),
        StorageMode::Managed => write!(f, "managed"),
        StorageMode::Private => write!(f, "private"),
        StorageMode::Memoryless => write!(f, "memoryless"),
        StorageMode::Other(mode) => write!(f, "other:{mode}"),
    }
}

fn cache_word(mode: CpuCacheMode) -> &'static str
    ensures { result.now ≡ cache_text mode }
{
    match mode {
        CpuCacheMode::DefaultCache => "defaultcache",
        CpuCacheMode::WriteCombined => "writecombined",
    }
}

fn write_asked<W: fmt::Write>(
    questions: u64,
    heap: &Option<(HeapDescriptor, u64)>,
    f: &mut fmt::Formatter<W>,
) -> fmt::Result
    ensures { DisplaysOnOk W.write_str_gives f.old result (Some (asked_text questions heap.now))
        f.new }
{
    match heap {
        None => write!(f, "asked {questions} heap none"),
        Some((desc, size)) => {
            let size = *size;
            let cache = cache_word(desc.cpu_cache_mode);
            write!(f, "asked {questions} heap {size} ")?;
            write_mode(desc.storage_mode, f)?;
            write!(f, " {cache}")
        }
    }
}

fn write_told<W: fmt::Write>(told: &Told, f: &mut fmt::Formatter<W>) -> fmt::Result
    ensures { DisplaysOnOk W.write_str_gives f.old result (Some (served_text told.now)) f.new }
{
    match told {
        Told::Allocated(given) => write_place_in_heap(given, given.heap.0, f),
        Told::Done => write!(f, "ok"),
        Told::Heaps(heaps) => write_heaps(heaps, f),
        Told::Report(report) => write_report(report, f),
        Told::Capacity(bytes) => write!(f, "{bytes}"),
        Told::NoPlace => write!(f, "none"),
        Told::Busy => write!(f, "busy"),
        Told::Unbound => write!(f, "unbound"),
        Told::Error(error) => {
            let number = number_of(error);
            write!(f, "error {number}")
        }
    }
}

impl fmt::Display for Reply {
    ghost use Rattle.std.specs.Prelude.{Some};
    ghost use Rattle.gpu_trace_text.specs.MetalReply.{reply_text};

    ghost output = { λ r. Some (reply_text r) };

    fn fmt<W: fmt::Write>(&self, f: &mut fmt::Formatter<W>) -> fmt::Result {
        match self {
            Reply::Made => write!(f, "ok"),
            Reply::Refused(number) => write!(f, "error {number}"),
            Reply::Served(told) => write_told(told, f),
            Reply::Members(heaps) => {
                write!(f, "members ")?;
                write_listed(heaps, f)
            }
            Reply::Committed(heaps) => {
                write!(f, "committed ")?;
                write_listed(heaps, f)
            }
            Reply::NoSet => write!(f, "none"),
            Reply::Asked { questions, heap } => write_asked(*questions, heap, f),
            Reply::Held { count, members } => write!(f, "held {count} members {members}"),
        }
    }
}
