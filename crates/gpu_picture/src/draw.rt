//! What is written of the blocks that a trace leaves.

ghost use Rattle.std.specs.Prelude.{◌≡◌, [], map, IfOk, IfErr, OnOk};
ghost use Rattle.std.specs.Io.KnownBytes.{Appends};
ghost use Rattle.gpu_values.specs.declared.error.AllocationError.TheVariants.{HostOutOfMemory};
ghost use Rattle.gpu_report.specs.View.{shown};
ghost use Rattle.gpu_report.specs.BlocksSvg.{blocks_svg};
ghost use Rattle.gpu_picture.specs.Draw.{drawing, shown_types, DrawsBlock, DrawsTypes, DrawsVulkan, DrawsMetal, DrawsD3D12, Draws};

use gpu_core::MemoryTypes;
use gpu_report::{BlockView, BlocksJson, BlocksSvg, add_views};
use gpu_trace_text::{AnyTrace, BlockStage, Stage, d3d12, metal};
use gpu_values::AllocationError;
use std::alloc::Global;
use std::io;
use std::io::Write;

/// What is to be written.
#[derive(Clone, Copy)]
pub enum Form {
    Svg,
    Json,
}

/// Writes views of blocks in a form, and flushes.
fn write_views<W: Write>(form: Form, views: &[BlockView<'_>], writer: &mut W) -> io::Result<()>
    ensures { OnOk result (Appends (W.contents writer.old) (W.contents writer.new)
        (drawing form views.now)) }
{
    match form {
        Form::Svg => {
            let picture = BlocksSvg(views);
            write!(writer, "{picture}")?;
        }
        Form::Json => {
            let json = BlocksJson(views);
            writeln!(writer, "{json}")?;
        }
    }
    writer.flush()
}

/// Writes the picture of no blocks.
pub fn draw_nothing<W: Write>(writer: &mut W) -> io::Result<()>
    ensures { OnOk result (Appends (W.contents writer.old) (W.contents writer.new)
        (blocks_svg [])) }
{
    write_views(Form::Svg, &[], writer)
}

/// Writes the block of a block trace, or none where it made none.
fn draw_block<W: Write>(form: Form, stage: &BlockStage, writer: &mut W) -> io::Result<()>
    ensures { OnOk result (DrawsBlock form stage.now (W.contents writer.old)
        (W.contents writer.new)) }
{
    match stage {
        BlockStage::Open(session) => {
            let view = BlockView {
                memory_type: 0,
                slot: 0,
                page_size: session.granularity(),
                block: session.block(),
            };
            write_views(form, &[view], writer)
        }
        BlockStage::Before | BlockStage::Closed => write_views(form, &[], writer),
    }
}

/// Views of all live blocks, by memory type and slot. The only refusal is `HostOutOfMemory`.
fn views_of<'a, H: Copy + Eq>(
    alloc: Global,
    types: &'a MemoryTypes<H>,
) -> Result<Vec<BlockView<'a>>, AllocationError>
    ensures views { IfOk result (λ views. map shown views.items ≡ shown_types 0 types.now) }
    ensures cause { IfErr result (λ e. e ≡ HostOutOfMemory) }
{
    let mut views = Vec::new(alloc);
    for index in 0..types.count() {
        if let Some(memory_type) = types.memory_type(index) {
            add_views(&mut views, index, memory_type)?;
        }
    }
    Ok(views)
}

/// Writes all live blocks of an allocator's memory types. Fails too where host memory for the views is refused.
fn draw_types<H: Copy + Eq, W: Write>(
    alloc: Global,
    form: Form,
    types: &MemoryTypes<H>,
    writer: &mut W,
) -> io::Result<()>
    ensures { OnOk result (DrawsTypes form types.now (W.contents writer.old)
        (W.contents writer.new)) }
{
    match views_of(alloc, types) {
        Ok(views) => write_views(form, &views, writer),
        Err(_) => Err(io::Error::from(io::ErrorKind::OutOfMemory)),
    }
}

/// Writes the blocks of a block trace or of a device trace's allocator.
fn draw_vulkan<W: Write>(alloc: Global, form: Form, stage: &Stage, writer: &mut W) -> io::Result<()>
    ensures { OnOk result (DrawsVulkan form stage.now (W.contents writer.old)
        (W.contents writer.new)) }
{
    match stage {
        Stage::Block(stage) => draw_block(form, stage, writer),
        Stage::Device(session) => {
            draw_types(alloc, form, session.allocator().memory_types(), writer)
        }
        Stage::Before | Stage::Configuring(_) | Stage::Closed => write_views(form, &[], writer),
    }
}

/// Writes the blocks of a Metal trace's allocator.
fn draw_metal<W: Write>(
    alloc: Global,
    form: Form,
    stage: &metal::Stage,
    writer: &mut W,
) -> io::Result<()>
    ensures { OnOk result (DrawsMetal form stage.now (W.contents writer.old)
        (W.contents writer.new)) }
{
    match stage {
        metal::Stage::Running(session) => {
            draw_types(alloc, form, session.allocator().memory_types(), writer)
        }
        metal::Stage::Configuring(_) | metal::Stage::Closed => write_views(form, &[], writer),
    }
}

/// Writes the blocks of a DirectX 12 trace's allocator; its committed resources are no blocks.
fn draw_d3d12<W: Write>(
    alloc: Global,
    form: Form,
    stage: &d3d12::Stage,
    writer: &mut W,
) -> io::Result<()>
    ensures { OnOk result (DrawsD3D12 form stage.now (W.contents writer.old)
        (W.contents writer.new)) }
{
    match stage {
        d3d12::Stage::Running(session) => {
            draw_types(alloc, form, session.allocator().memory_types(), writer)
        }
        d3d12::Stage::Configuring(_) | d3d12::Stage::Closed => write_views(form, &[], writer),
    }
}

/// Writes the blocks that a trace leaves: the one of a block trace, or all of its allocator. A trace that made neither, or
/// destroyed its allocator, has none.
pub fn draw<W: Write>(alloc: Global, form: Form, trace: &AnyTrace, writer: &mut W) -> io::Result<()>
    ensures { OnOk result (Draws form trace.now (W.contents writer.old) (W.contents writer.new)) }
{
    match trace {
        AnyTrace::Vulkan(stage) => draw_vulkan(alloc, form, stage, writer),
        AnyTrace::Metal(stage) => draw_metal(alloc, form, stage, writer),
        AnyTrace::D3D12(stage) => draw_d3d12(alloc, form, stage, writer),
    }
}
