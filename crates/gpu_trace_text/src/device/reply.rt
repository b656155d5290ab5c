//! What is answered to a line of a device trace.

ghost use Rattle.std.specs.Prelude.{◌≡◌, ◌<◌, Some, [], ◌∷◌, map, string_bytes};
ghost use Rattle.std.specs.List.{flat_map};
ghost use Rattle.std.specs.Fmt.{DisplaysOnOk};
ghost use Rattle.gpu_values.specs.Report.{row_of};
ghost use Rattle.gpu_block_session.specs.BlockReply.{piece_line};
ghost use Rattle.gpu_trace_text.specs.Hex.{hex, hex_byte, hex_digit};
ghost use Rattle.gpu_trace_text.specs.DeviceReply.{bool_text, allocated_text, place_in_heap, block_line, leak_line, leaks_text, report_text, served_text};

use gpu_block_session::text::reply::write_pieces;
use gpu_run::vulkan::{Allocated, Reply as Told};
use gpu_run::{ErrorNumber, number_of};
use gpu_values::{AllocatorReport, MemoryBlockReport};
use std::fmt;

/// The answer to a line of a device trace.
#[derive(Drop)]
pub enum Reply {
    /// The allocator was made.
    Made,
    /// What the session answers to a command.
    Served(Told),
    /// How many memories the device holds.
    Held(u64),
    /// The allocator was not made.
    Refused(ErrorNumber),
}

fn word_of(value: bool) -> &'static str
    ensures { result.now ≡ bool_text value }
{
    if value { "true" } else { "false" }
}

fn write_allocated<W: fmt::Write>(given: &Allocated, f: &mut fmt::Formatter<W>) -> fmt::Result
    ensures { DisplaysOnOk W.write_str_gives f.old result (Some (allocated_text given.now)) f.new }
{
    let Allocated {
        memory_type,
        slot,
        offset,
        size,
        chunk,
        dedicated,
        mapped,
    } = *given;
    let chunk = chunk.get();
    let dedicated = word_of(dedicated);
    let mapped = word_of(mapped);
    write!(
        f,
        "ok type {memory_type} slot {slot} offset {offset} size {size}"
    )?;
    write!(f, " chunk {chunk} dedicated {dedicated} mapped {mapped}")
}

/// A new allocation in the heap of that number.
pub fn write_place_in_heap<H, W: fmt::Write>(
    given: &gpu_run::Allocated<H>,
    heap: u64,
    f: &mut fmt::Formatter<W>,
) -> fmt::Result
    ensures { DisplaysOnOk W.write_str_gives f.old result (Some (place_in_heap given.now heap)) f.new }
{
    let memory_type = given.memory_type;
    let slot = given.slot;
    let offset = given.offset;
    let size = given.size;
    let chunk = given.chunk.get();
    write!(
        f,
        "ok type {memory_type} slot {slot} offset {offset} size {size}"
    )?;
    write!(f, " chunk {chunk} heap {heap}")
}

fn digit(value: u8) -> &'static str
    requires { value < 16 }
    ensures { result.now ≡ hex_digit value ∷ [] }
{
    match value {
        0 => "0",
        1 => "1",
        2 => "2",
        3 => "3",
        4 => "4",
        5 => "5",
        6 => "6",
        7 => "7",
        8 => "8",
        9 => "9",
        10 => "a",
        11 => "b",
        12 => "c",
        13 => "d",
        14 => "e",
        15 => "f",
        _ => unreachable!(),
    }
}

fn write_byte<W: fmt::Write>(byte: u8, f: &mut fmt::Formatter<W>) -> fmt::Result
    ensures { DisplaysOnOk W.write_str_gives f.old result (Some (hex_byte byte)) f.new }
{
    let high = digit(byte / 16);
    let low = digit(byte % 16);
    write!(f, "{high}{low}")
}

fn write_bytes<W: fmt::Write>(bytes: &[u8], f: &mut fmt::Formatter<W>) -> fmt::Result
    ensures { DisplaysOnOk W.write_str_gives f.old result (Some (hex bytes.now)) f.new }
{
    for byte in bytes {
        write_byte(*byte, f)?;
    }
    Ok(())
}

fn write_block<W: fmt::Write>(block: &MemoryBlockReport, f: &mut fmt::Formatter<W>) -> fmt::Result
    ensures { DisplaysOnOk W.write_str_gives f.old result (Some (block_line block.now)) f.new }
{
    let size = block.size;
    let first = block.allocations.start;
    let end = block.allocations.end;
    writeln!(f, "block {size} {first} {end}")
}

fn write_blocks<W: fmt::Write>(
    blocks: &[MemoryBlockReport],
    f: &mut fmt::Formatter<W>,
) -> fmt::Result
    ensures { DisplaysOnOk W.write_str_gives f.old result (Some (flat_map block_line blocks.now))
        f.new }
{
    for block in blocks {
        write_block(block, f)?;
    }
    Ok(())
}

/// A report of an allocator: its pieces and blocks, a line each, and the sums.
pub fn write_report<W: fmt::Write>(
    report: &AllocatorReport,
    f: &mut fmt::Formatter<W>,
) -> fmt::Result
    ensures { DisplaysOnOk W.write_str_gives f.old result (Some (report_text report.now)) f.new }
{
    write_pieces(&report.allocations, f)?;
    write_blocks(&report.blocks, f)?;
    let total = report.total_allocated_bytes;
    let capacity = report.total_capacity_bytes;
    write!(f, "total {total} capacity {capacity}")
}

fn write_leak<W: fmt::Write>(text: &str, f: &mut fmt::Formatter<W>) -> fmt::Result
    ensures { DisplaysOnOk W.write_str_gives f.old result (Some (leak_line text.now)) f.new }
{
    writeln!(f, "{text}")
}

/// The texts of leaks, each with a line end, and their count.
pub fn write_leaks<W: fmt::Write>(texts: &[String], f: &mut fmt::Formatter<W>) -> fmt::Result
    ensures { DisplaysOnOk W.write_str_gives f.old result
        (Some (leaks_text (map string_bytes texts.now))) f.new }
{
    for text in texts {
        write_leak(text.as_str(), f)?;
    }
    let count = texts.len();
    write!(f, "leaks {count}")
}

fn write_told<W: fmt::Write>(told: &Told, f: &mut fmt::Formatter<W>) -> fmt::Result
    ensures { DisplaysOnOk W.write_str_gives f.old result (Some (served_text told.now)) f.new }
{
    match told {
        Told::Allocated(given) => write_allocated(given, f),
        Told::Done => write!(f, "ok"),
        Told::Bytes(bytes) => write_bytes(bytes, f),
        Told::Report(report) => write_report(report, f),
        Told::Leaks(texts) => write_leaks(texts, f),
        Told::Capacity(bytes) => write!(f, "{bytes}"),
        Told::Busy => write!(f, "busy"),
        Told::Unbound => write!(f, "unbound"),
        Told::NoPlace => write!(f, "none"),
        Told::Unmapped => write!(f, "none"),
        Told::OutOfRange => write!(f, "range"),
        Told::Error(error) => {
            let number = number_of(error);
            write!(f, "error {number}")
        }
    }
}

impl fmt::Display for Reply {
    ghost use Rattle.gpu_trace_text.specs.DeviceReply.{reply_text};

    ghost output = { λ r. Some (reply_text r) };

    fn fmt<W: fmt::Write>(&self, f: &mut fmt::Formatter<W>) -> fmt::Result {
        match self {
            Reply::Made => write!(f, "ok"),
            Reply::Served(told) => write_told(told, f),
            Reply::Held(count) => write!(f, "held {count}"),
            Reply::Refused(number) => write!(f, "error {number}"),
        }
    }
}
