//! What is written of the plan that a trace leaves.

ghost use Rattle.std.specs.Prelude.{◌≡◌, ◌<◌, length, IfOk, OnOk};
ghost use Rattle.std.specs.Io.KnownBytes.{Appends};
ghost use Rattle.gpu_report.specs.View.{shown_resource};
ghost use Rattle.gpu_report.specs.PlanSvg.{plan_svg};
ghost use Rattle.gpu_plan_session.specs.PlanSession.{offsets_of};
ghost use Rattle.gpu_picture.specs.DrawPlan.{view_at, AreViews, DrawsSolved, DrawsPlan};

use crate::drawn::Drawn;
use gpu_block_session::ErrorNumber;
use gpu_plan::Placed;
use gpu_plan_session::{Listed, Place, PlanStage, Reply, Solved};
use gpu_report::{PlanSvg, ResourceView};
use std::alloc::{AllocError, Global};
use std::io;
use std::io::Write;

/// The resource at an index, as it is to be shown.
fn view_at<'a>(listed: &'a [Listed], places: &[Place], index: usize) -> ResourceView<'a>
    requires index { index < length listed.now }
    requires each { length places.now ≡ length listed.now }
    ensures { shown_resource result ≡ view_at listed.now (offsets_of places.now) index }
{
    let one = &listed[index];
    ResourceView {
        name: one.name.as_str(),
        placed: Placed {
            resource: one.resource,
            offset: places[index].offset,
        },
    }
}

/// All resources, as they are to be shown.
fn views_of<'a>(
    alloc: Global,
    listed: &'a [Listed],
    places: &[Place],
) -> Result<Vec<ResourceView<'a>>, AllocError>
    requires { length places.now ≡ length listed.now }
    ensures { IfOk result (λ views. AreViews listed.now (offsets_of places.now) views.items) }
{
    let mut views = Vec::with_capacity(alloc, listed.len())?;
    for index in 0..listed.len() {
        views.push(view_at(listed, places, index))?;
    }
    Ok(views)
}

/// Writes a plan as a picture, and flushes. Heap and peak are bytes.
fn write_plan<W: Write>(
    resources: &[ResourceView<'_>],
    heap: u64,
    peak: u64,
    writer: &mut W,
) -> io::Result<()>
    ensures { OnOk result (Appends (W.contents writer.old) (W.contents writer.new)
        (plan_svg resources.now heap peak)) }
{
    let picture = PlanSvg {
        resources,
        heap,
        peak,
    };
    write!(writer, "{picture}")?;
    writer.flush()
}

/// Writes resources at their places. Fails too where host memory for the views is refused.
fn draw_solved<W: Write>(
    alloc: Global,
    listed: &[Listed],
    solved: &Solved,
    writer: &mut W,
) -> io::Result<()>
    requires { length solved.now.places.items ≡ length listed.now }
    ensures { OnOk result (DrawsSolved listed.now solved.now (W.contents writer.old)
        (W.contents writer.new)) }
{
    match views_of(alloc, listed, &solved.places) {
        Ok(views) => write_plan(&views, solved.heap, solved.peak, writer),
        Err(_) => Err(io::Error::from(io::ErrorKind::OutOfMemory)),
    }
}

/// Writes the plan of all resources that a plan trace leaves, whether its last line asks for it or not. Fails too where host memory for
/// the plan is refused.
pub fn draw_plan<W: Write>(alloc: Global, stage: &PlanStage, writer: &mut W) -> io::Result<Drawn>
    ensures { IfOk result (λ drawn. DrawsPlan stage.now drawn (W.contents writer.old)
        (W.contents writer.new)) }
{
    let PlanStage::Open(session) = stage else {
        write_plan(&[], 0, 0, writer)?;
        return Ok(Drawn::Whole);
    };
    match session.solve(alloc) {
        Reply::Solved(solved) => {
            draw_solved(alloc, session.listed(), &solved, writer)?;
            Ok(Drawn::Whole)
        }
        Reply::Refused(ErrorNumber::E1) => Ok(Drawn::TooLarge),
        Reply::Refused(_) | Reply::Done | Reply::Busy => {
            Err(io::Error::from(io::ErrorKind::OutOfMemory))
        }
    }
}
