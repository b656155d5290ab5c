//! The pieces of a block that are still live, and their texts.

ghost use Rattle.std.specs.Prelude.{◌≡◌, Some, ◌∷◌, [], MatchOption, map, string_bytes, IfOk, IfErr};
ghost use Rattle.gpu_values.specs.declared.error.AllocationError.TheVariants.{HostOutOfMemory};
ghost use Rattle.std.specs.Fmt.{DisplaysOnOk};
ghost use Rattle.std.specs.Iterator.{YieldsFirst, item_count};
ghost use Rattle.gpu_block_chunks.specs.ChunkList.{chunk_of};
ghost use Rattle.gpu_block_pieces.specs.Chunks.{extent, extents_of};
ghost use Rattle.gpu_block_pieces.specs.Leak.{leak_text, block_lines, piece_text, chunk_text, dedicated_text, chunk_id_line, size_line, start_line, kind_line, name_line, kind_name};

use crate::pieces::first_piece;
use gpu_block_chunks::{ChunkView, Walk};
use gpu_cost::Cost;
use gpu_values::{AllocationType, Result};
use std::alloc::Global;
use std::fmt;
use std::marker::Model;

/// A piece that is still live. It prints where its block stands, and the piece's start, padded size, kind and name.
#[derive(Drop)]
pub struct Leak<'a> {
    memory_type: usize,
    memory_block: usize,
    shared: bool,
    chunk: ChunkView<'a>,
}

impl<'a> Model for Leak<'a> {
    ghost use Rattle.gpu_block_chunks.specs.ChunkList.{chunk_of};
    ghost use Rattle.gpu_block_pieces.specs.Chunks.{extent};
    ghost use Rattle.gpu_block_pieces.specs.Leak.{LeakOf, leak_of};

    ghost Value = { LeakOf };

    ghost view = { λ l. leak_of l.memory_type l.memory_block l.shared (extent (chunk_of l.chunk)) };
}

/// The live pieces of a block in order of offset. It takes no memory.
#[derive(Drop)]
pub struct Leaks<'a> {
    memory_type: usize,
    memory_block: usize,
    shared: bool,
    rest: Walk<'a>,
    cost: Cost,
}

impl<'a> Model for Leaks<'a> {
    ghost use Rattle.std.specs.Prelude.{List, map};
    ghost use Rattle.gpu_block_pieces.specs.Chunks.{extents_of};
    ghost use Rattle.gpu_block_pieces.specs.Leak.{LeakOf, leak_of};

    ghost Value = { List LeakOf };

    ghost view = { λ l. map (leak_of l.memory_type l.memory_block l.shared) (extents_of l.rest) };
}

impl<'a> Leaks<'a> {
    ghost use Rattle.gpu_block_pieces.specs.Leak.{leak_of};

    /// The live pieces along that walk, which count in their own counter, of a free list or of a dedicated block.
    pub fn new(
        memory_type: usize,
        memory_block: usize,
        shared: bool,
        rest: Walk<'a>,
        cost: Cost,
    ) -> Leaks<'a>
        ensures { result ≡ map (leak_of memory_type memory_block shared) (extents_of rest.entry) }
    {
        Leaks {
            memory_type,
            memory_block,
            shared,
            rest,
            cost,
        }
    }
}

impl<'a> Iterator for Leaks<'a> {
    type Item = Leak<'a>;

    ghost next_gives = { YieldsFirst (λ s. s) };

    ghost remaining = { item_count (λ s. s) };

    fn next(&mut self) -> Option<Leak<'a>> {
        let chunk = first_piece(&mut self.rest, &mut self.cost)?;
        Some(Leak {
            memory_type: self.memory_type,
            memory_block: self.memory_block,
            shared: self.shared,
            chunk,
        })
    }
}

fn kind_name(kind: AllocationType) -> &'static str
    ensures { result.now ≡ kind_name kind }
{
    match kind {
        AllocationType::Free => "Free",
        AllocationType::Linear => "Linear",
        AllocationType::NonLinear => "NonLinear",
    }
}

fn write_chunk_id<W: fmt::Write>(chunk: &ChunkView<'_>, f: &mut fmt::Formatter<W>) -> fmt::Result
    ensures { DisplaysOnOk W.write_str_gives f.old result
        (Some (chunk_id_line (extent (chunk_of chunk.now)))) f.new }
{
    let chunk_id = chunk.chunk_id;
    write!(f, "    chunk: {{\n        chunk_id: {chunk_id},\n")
}

fn write_size<W: fmt::Write>(chunk: &ChunkView<'_>, f: &mut fmt::Formatter<W>) -> fmt::Result
    ensures { DisplaysOnOk W.write_str_gives f.old result
        (Some (size_line (extent (chunk_of chunk.now)))) f.new }
{
    let size = chunk.size;
    write!(f, "        size: 0x{size:x},\n")
}

fn write_start<W: fmt::Write>(chunk: &ChunkView<'_>, f: &mut fmt::Formatter<W>) -> fmt::Result
    ensures { DisplaysOnOk W.write_str_gives f.old result
        (Some (start_line (extent (chunk_of chunk.now)))) f.new }
{
    let start = chunk.start;
    write!(f, "        offset: 0x{start:x},\n")
}

fn write_kind<W: fmt::Write>(chunk: &ChunkView<'_>, f: &mut fmt::Formatter<W>) -> fmt::Result
    ensures { DisplaysOnOk W.write_str_gives f.old result
        (Some (kind_line (extent (chunk_of chunk.now)))) f.new }
{
    let kind = kind_name(chunk.kind);
    write!(f, "        allocation_type: {kind},\n")
}

fn write_name<W: fmt::Write>(chunk: &ChunkView<'_>, f: &mut fmt::Formatter<W>) -> fmt::Result
    ensures { DisplaysOnOk W.write_str_gives f.old result
        (Some (name_line (extent (chunk_of chunk.now)))) f.new }
{
    let name = chunk.label.name.as_str();
    write!(f, "        name: {name}\n    }}\n")
}

fn write_chunk<W: fmt::Write>(chunk: &ChunkView<'_>, f: &mut fmt::Formatter<W>) -> fmt::Result
    ensures { DisplaysOnOk W.write_str_gives f.old result
        (Some (chunk_text (extent (chunk_of chunk.now)))) f.new }
{
    write_chunk_id(chunk, f)?;
    write_size(chunk, f)?;
    write_start(chunk, f)?;
    write_kind(chunk, f)?;
    write_name(chunk, f)
}

fn write_dedicated<W: fmt::Write>(chunk: &ChunkView<'_>, f: &mut fmt::Formatter<W>) -> fmt::Result
    ensures { DisplaysOnOk W.write_str_gives f.old result
        (Some (dedicated_text (extent (chunk_of chunk.now)))) f.new }
{
    f.write_str("    dedicated allocation: {\n")?;
    write_size(chunk, f)?;
    write_name(chunk, f)
}

fn write_piece<W: fmt::Write>(
    shared: bool,
    chunk: &ChunkView<'_>,
    f: &mut fmt::Formatter<W>,
) -> fmt::Result
    ensures { DisplaysOnOk W.write_str_gives f.old result
        (Some (piece_text shared (extent (chunk_of chunk.now)))) f.new }
{
    if shared {
        write_chunk(chunk, f)
    } else {
        write_dedicated(chunk, f)
    }
}

fn write_block<W: fmt::Write>(
    memory_type: usize,
    memory_block: usize,
    f: &mut fmt::Formatter<W>,
) -> fmt::Result
    ensures { DisplaysOnOk W.write_str_gives f.old result
        (Some (block_lines memory_type memory_block)) f.new }
{
    write!(
        f,
        "leak detected: {{\n    memory type: {memory_type}\n    memory block: {memory_block}\n"
    )
}

impl<'a> fmt::Display for Leak<'a> {
    ghost output = { λ leak. Some (leak_text leak) };

    fn fmt<W: fmt::Write>(&self, f: &mut fmt::Formatter<W>) -> fmt::Result {
        write_block(self.memory_type, self.memory_block, f)?;
        write_piece(self.shared, &self.chunk, f)?;
        f.write_str("}")
    }
}

/// The texts of the pieces, in order.
pub fn texts_of(alloc: Global, leaks: Leaks) -> Result<Vec<String>>
    ensures texts { IfOk result (λ v. map string_bytes v.items ≡ map leak_text leaks.entry) }
    ensures cause { IfErr result (λ e. e ≡ HostOutOfMemory) }
{
    let mut texts = Vec::new(alloc);
    for leak in leaks {
        texts.push(leak.to_string(alloc)?)?;
    }
    Ok(texts)
}
