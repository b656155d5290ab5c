//! What is answered to a line of a plan trace.

ghost use Rattle.std.specs.Prelude.{Some};
ghost use Rattle.std.specs.List.{flat_map};
ghost use Rattle.std.specs.Fmt.{DisplaysOnOk};
ghost use Rattle.gpu_plan_session.specs.PlanReply.{key_text, place_line, order_word, solved_text, reply_text};

use crate::{Place, Reply, Solved};
use gpu_plan::Order;
use std::fmt;

fn write_keys<W: fmt::Write>(keys: &[u64], f: &mut fmt::Formatter<W>) -> fmt::Result
    ensures { DisplaysOnOk W.write_str_gives f.old result (Some (flat_map key_text keys.now)) f.new }
{
    for key in keys {
        write!(f, " {key}")?;
    }
    Ok(())
}

fn write_place<W: fmt::Write>(place: &Place, f: &mut fmt::Formatter<W>) -> fmt::Result
    ensures { DisplaysOnOk W.write_str_gives f.old result (Some (place_line place.now)) f.new }
{
    let name = place.name.as_str();
    let offset = place.offset;
    let size = place.size;
    let count = place.reuses.len();
    write!(f, "place {name} {offset} {size} reuses {count}")?;
    write_keys(&place.reuses, f)?;
    writeln!(f)
}

fn write_places<W: fmt::Write>(places: &[Place], f: &mut fmt::Formatter<W>) -> fmt::Result
    ensures { DisplaysOnOk W.write_str_gives f.old result (Some (flat_map place_line places.now)) f.new }
{
    for place in places {
        write_place(place, f)?;
    }
    Ok(())
}

fn write_order<W: fmt::Write>(order: Order, f: &mut fmt::Formatter<W>) -> fmt::Result
    ensures { DisplaysOnOk W.write_str_gives f.old result (Some (order_word order)) f.new }
{
    f.write_str(match order {
        Order::Size => "size",
        Order::Area => "area",
        Order::Alignment => "alignment",
        Order::Magnitude => "magnitude",
        Order::Breadth => "breadth",
    })
}

fn write_solved<W: fmt::Write>(solved: &Solved, f: &mut fmt::Formatter<W>) -> fmt::Result
    ensures { DisplaysOnOk W.write_str_gives f.old result (Some (solved_text solved.now)) f.new }
{
    write_places(&solved.places, f)?;
    let heap = solved.heap;
    let peak = solved.peak;
    write!(f, "heap {heap} peak {peak} order ")?;
    write_order(solved.order, f)
}

/// What a session of a plan answers, as a trace shows it.
pub fn write_reply<W: fmt::Write>(reply: &Reply, f: &mut fmt::Formatter<W>) -> fmt::Result
    ensures { DisplaysOnOk W.write_str_gives f.old result (Some (reply_text reply.now)) f.new }
{
    match reply {
        Reply::Done => write!(f, "ok"),
        Reply::Busy => write!(f, "busy"),
        Reply::Refused(number) => write!(f, "error {number}"),
        Reply::Solved(solved) => write_solved(solved, f),
    }
}

/// A reply, as a trace shows it.
#[derive(Drop)]
pub struct Shown<'a>(pub &'a Reply);

impl fmt::Display for Shown<'_> {
    ghost use Rattle.gpu_plan_session.specs.PlanReply.{reply_text};

    ghost output = { λ s. Some (reply_text s.0.now) };

    fn fmt<W: fmt::Write>(&self, f: &mut fmt::Formatter<W>) -> fmt::Result {
        write_reply(self.0, f)
    }
}
