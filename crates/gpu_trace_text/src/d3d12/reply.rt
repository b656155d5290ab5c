//! What is answered to a line of a DirectX 12 trace.

ghost use Rattle.std.specs.Prelude.{◌≡◌, Some};
ghost use Rattle.std.specs.Fmt.{DisplaysOnOk};
ghost use Rattle.gpu_trace_text.specs.D3D12Reply.{place_text, made_text, statistics_text, type_text, page_text, pool_text, content_text};
ghost use Rattle.gpu_trace_text.specs.D3D12Reply.{heap_text, formats_text, clear_text, initial_text, asked_text, served_text};

use crate::device::reply::{write_leaks, write_place_in_heap, write_report};
use gpu_d3d12::{CommittedAllocationStatistics, ResourceStateOrBarrierLayout};
use gpu_device::d3d12::{ClearValue, CpuPageProperty, HeapContent, HeapDesc, HeapType, MemoryPool};
use gpu_run::d3d12::{Allocated, Made, Reply as Told};
use gpu_run::{ErrorNumber, number_of};
use std::fmt;

/// The answer to a line of a DirectX 12 trace.
#[derive(Drop)]
pub enum Reply {
    /// The allocator was made.
    Made,
    /// The allocator was not made.
    Refused(ErrorNumber),
    /// What the session answers to a command.
    Served(Told),
    /// How many questions the device was asked, the latest one for a heap, and of the latest one for a resource how many
    /// formats were handed on, its clear value, and how it was to begin.
    Asked {
        questions: u64,
        heap: Option<HeapDesc>,
        formats: Option<usize>,
        clear: Option<ClearValue>,
        initial: Option<ResourceStateOrBarrierLayout>,
    },
    /// How many heaps and resources the device holds.
    Held(u64),
}

/// Where a placed resource lies.
fn write_place<W: fmt::Write>(piece: &Option<Allocated>, f: &mut fmt::Formatter<W>) -> fmt::Result
    ensures { DisplaysOnOk W.write_str_gives f.old result (Some (place_text piece.now)) f.new }
{
    match piece {
        None => Ok(()),
        Some(given) => {
            let Allocated {
                memory_type,
                slot,
                offset,
                size: _,
                chunk,
                heap: _,
            } = *given;
            let chunk = chunk.get();
            write!(
                f,
                " type {memory_type} slot {slot} offset {offset} chunk {chunk}"
            )
        }
    }
}

fn write_made<W: fmt::Write>(made: &Made, f: &mut fmt::Formatter<W>) -> fmt::Result
    ensures { DisplaysOnOk W.write_str_gives f.old result (Some (made_text made.now)) f.new }
{
    let number = made.resource.0;
    let size = made.size;
    write!(f, "ok resource {number} size {size}")?;
    write_place(&made.piece, f)
}

fn write_statistics<W: fmt::Write>(
    statistics: &Option<CommittedAllocationStatistics>,
    f: &mut fmt::Formatter<W>,
) -> fmt::Result
    ensures { DisplaysOnOk W.write_str_gives f.old result (Some (statistics_text statistics.now))
        f.new }
{
    match statistics {
        None => write!(f, "none"),
        Some(statistics) => {
            let count = statistics.num_allocations;
            let size = statistics.total_size;
            write!(f, "committed {count} {size}")
        }
    }
}

fn type_word(heap_type: HeapType) -> &'static str
    ensures { result.now ≡ type_text heap_type }
{
    match heap_type {
        HeapType::Default => "default",
        HeapType::Upload => "upload",
        HeapType::Readback => "readback",
        HeapType::Custom => "custom",
    }
}

fn page_word(page: CpuPageProperty) -> &'static str
    ensures { result.now ≡ page_text page }
{
    match page {
        CpuPageProperty::Unknown => "unknown",
        CpuPageProperty::NotAvailable => "notavailable",
        CpuPageProperty::WriteCombine => "writecombine",
        CpuPageProperty::WriteBack => "writeback",
    }
}

fn pool_word(pool: MemoryPool) -> &'static str
    ensures { result.now ≡ pool_text pool }
{
    match pool {
        MemoryPool::Unknown => "unknown",
        MemoryPool::L0 => "l0",
        MemoryPool::L1 => "l1",
    }
}

fn content_word(content: HeapContent) -> &'static str
    ensures { result.now ≡ content_text content }
{
    match content {
        HeapContent::All => "all",
        HeapContent::Buffers => "buffers",
        HeapContent::RtDsTextures => "rtdstextures",
        HeapContent::NonRtDsTextures => "nonrtdstextures",
    }
}

fn write_heap<W: fmt::Write>(heap: &Option<HeapDesc>, f: &mut fmt::Formatter<W>) -> fmt::Result
    ensures { DisplaysOnOk W.write_str_gives f.old result (Some (heap_text heap.now)) f.new }
{
    match heap {
        None => write!(f, "none"),
        Some(desc) => {
            let size = desc.size;
            let heap_type = type_word(desc.properties.heap_type);
            let page = page_word(desc.properties.cpu_page_property);
            let pool = pool_word(desc.properties.memory_pool_preference);
            let alignment = desc.alignment;
            let content = content_word(desc.content);
            write!(f, "{size} {heap_type} {page}")?;
            write!(f, " {pool} {alignment} {content}")
        }
    }
}

fn write_formats<W: fmt::Write>(formats: Option<usize>, f: &mut fmt::Formatter<W>) -> fmt::Result
    ensures { DisplaysOnOk W.write_str_gives f.old result (Some (formats_text formats)) f.new }
{
    match formats {
        None => write!(f, " formats none"),
        Some(count) => write!(f, " formats {count}"),
    }
}

fn write_clear<W: fmt::Write>(clear: &Option<ClearValue>, f: &mut fmt::Formatter<W>) -> fmt::Result
    ensures { DisplaysOnOk W.write_str_gives f.old result (Some (clear_text clear.now)) f.new }
{
    match clear {
        None => write!(f, " clear none"),
        Some(value) => {
            let format = value.format.0;
            let [a, b, c, d] = value.value;
            write!(f, " clear {format}:{a}:{b}:{c}:{d}")
        }
    }
}

fn write_initial<W: fmt::Write>(
    initial: Option<ResourceStateOrBarrierLayout>,
    f: &mut fmt::Formatter<W>,
) -> fmt::Result
    ensures { DisplaysOnOk W.write_str_gives f.old result (Some (initial_text initial)) f.new }
{
    match initial {
        None => write!(f, " initial none"),
        Some(ResourceStateOrBarrierLayout::ResourceState(state)) => {
            write!(f, " initial state:{state}")
        }
        Some(ResourceStateOrBarrierLayout::BarrierLayout(layout)) => {
            write!(f, " initial layout:{layout}")
        }
    }
}

fn write_asked<W: fmt::Write>(
    questions: u64,
    heap: &Option<HeapDesc>,
    formats: Option<usize>,
    clear: &Option<ClearValue>,
    initial: Option<ResourceStateOrBarrierLayout>,
    f: &mut fmt::Formatter<W>,
) -> fmt::Result
    ensures { DisplaysOnOk W.write_str_gives f.old result
        (Some (asked_text questions heap.now formats clear.now initial)) f.new }
{
    write!(f, "asked {questions} heap ")?;
    write_heap(heap, f)?;
    write_formats(formats, f)?;
    write_clear(clear, f)?;
    write_initial(initial, f)
}

fn write_told<W: fmt::Write>(told: &Told, f: &mut fmt::Formatter<W>) -> fmt::Result
    ensures { DisplaysOnOk W.write_str_gives f.old result (Some (served_text told.now)) f.new }
{
    match told {
        Told::Allocated(given) => write_place_in_heap(given, given.heap.0, f),
        Told::Made(made) => write_made(made, f),
        Told::Done => write!(f, "ok"),
        Told::Leaks(texts) => write_leaks(texts, f),
        Told::Report(report) => write_report(report, f),
        Told::Capacity(bytes) => write!(f, "{bytes}"),
        Told::Committed(statistics) => write_statistics(statistics, f),
        Told::NoPlace => write!(f, "none"),
        Told::Busy => write!(f, "busy"),
        Told::Unbound => write!(f, "unbound"),
        Told::Error(error) => {
            let number = number_of(error);
            write!(f, "error {number}")
        }
    }
}

impl fmt::Display for Reply {
    ghost use Rattle.std.specs.Prelude.{Some};
    ghost use Rattle.gpu_trace_text.specs.D3D12Reply.{reply_text};

    ghost output = { λ r. Some (reply_text r) };

    fn fmt<W: fmt::Write>(&self, f: &mut fmt::Formatter<W>) -> fmt::Result {
        match self {
            Reply::Made => write!(f, "ok"),
            Reply::Refused(number) => write!(f, "error {number}"),
            Reply::Served(told) => write_told(told, f),
            Reply::Asked {
                questions,
                heap,
                formats,
                clear,
                initial,
            } => write_asked(*questions, heap, *formats, clear, *initial, f),
            Reply::Held(count) => write!(f, "held {count}"),
        }
    }
}
