//! The orders in which resources are placed.

ghost use Rattle.std.specs.Prelude.{◌≡◌, ℕ, ◌<◌, ◌≤◌, All, IfOk, length, map};
ghost use Rattle.std.specs.List.{range_with_len};
ghost use Rattle.gpu_plan.specs.Plan.{IsValid};
ghost use Rattle.gpu_plan.specs.Passes.{AreStarts};
ghost use Rattle.gpu_plan.specs.Order.{IsOrder};
ghost use Rattle.gpu_plan.specs.Rank.{Ranks};

use crate::passes::{Start, busiest};
use crate::resource::Resource;
use std::alloc::{AllocError, Global};
use std::cmp::Reverse;

/// An order of resources; of those that are equal in it, the one with the least index goes first.
#[derive(Clone, Copy, Debug, PartialEq, Eq)]
pub enum Order {
    /// The largest size first.
    Size,
    /// The largest product of the size and the number of passes first.
    Area,
    /// The largest alignment first, of equal ones the largest size.
    Alignment,
    /// The largest power of two in the size first, of equal ones the longest life, of equal ones the largest size.
    Magnitude,
    /// The pass with the most bytes alive first, of equal ones the first: in each the resources that no pass before it has, the largest first.
    Breadth,
}

impl Order {
    /// All orders; of those whose plans are equally good the first is chosen.
    pub const ALL: [Order; 5] = [
        Order::Size,
        Order::Area,
        Order::Alignment,
        Order::Magnitude,
        Order::Breadth,
    ];
}

/// What resources are sorted by.
#[derive(Clone, Copy, PartialEq, Eq, PartialOrd, Ord)]
struct Rank {
    most: Reverse<u128>,
    pass: u64,
    second: Reverse<u64>,
    third: Reverse<u64>,
    index: usize,
}

impl Rank {
    /// A rank by one number.
    fn by(most: u128, index: usize) -> Rank
        ensures { result ≡ record {
          most = record { 0 = most };
          pass = 0;
          second = record { 0 = 0 };
          third = record { 0 = 0 };
          index = index;
        } }
    {
        Rank {
            most: Reverse(most),
            pass: 0,
            second: Reverse(0),
            third: Reverse(0),
            index,
        }
    }
}

/// The rank of the resource at an index.
fn rank_of(order: Order, resources: &[Resource], starts: &[Start], index: usize) -> Rank
    requires valid { All IsValid resources.now }
    requires index { index < length resources.now }
    requires starts { AreStarts resources.now starts.now }
    ensures index { result.index ≡ index }
    ensures ranks { Ranks order resources.now result }
{
    let r = &resources[index];
    match order {
        Order::Size => Rank::by(r.size as u128, index),
        Order::Area => Rank::by(r.size as u128 * ((r.last - r.first) as u128 + 1), index),
        Order::Alignment => Rank {
            second: Reverse(r.size),
            ..Rank::by(r.alignment as u128, index)
        },
        Order::Magnitude => Rank {
            second: Reverse(r.last - r.first),
            third: Reverse(r.size),
            ..Rank::by(r.size.ilog2() as u128, index)
        },
        Order::Breadth => {
            let start = busiest(starts, r.first, r.last);
            Rank {
                pass: start.pass,
                second: Reverse(r.size),
                ..Rank::by(start.bytes, index)
            }
        }
    }
}

/// The ranks of all resources.
fn all_ranks(
    alloc: Global,
    order: Order,
    resources: &[Resource],
    starts: &[Start],
) -> Result<Vec<Rank>, AllocError>
    requires valid { All IsValid resources.now }
    requires starts { AreStarts resources.now starts.now }
    ensures indices { IfOk result (λ ranks. map (λ x. x.index) ranks.items
        ≡ range_with_len 0 (length resources.now)) }
    ensures ranks { IfOk result (λ ranks. All (Ranks order resources.now) ranks.items) }
{
    let mut ranks = Vec::with_capacity(alloc, resources.len())?;
    for index in 0..resources.len() {
        ranks.push(rank_of(order, resources, starts, index))?;
    }
    Ok(ranks)
}

/// The indices of the resources in an order.
pub fn indices_in(
    alloc: Global,
    order: Order,
    resources: &[Resource],
    starts: &[Start],
) -> Result<Vec<usize>, AllocError>
    requires valid { All IsValid resources.now }
    requires starts { AreStarts resources.now starts.now }
    ensures { IfOk result (λ indices. IsOrder order resources.now indices.items) }
{
    let mut ranks = all_ranks(alloc, order, resources, starts)?;
    ranks.sort_unstable();
    let mut indices = Vec::with_capacity(alloc, ranks.len())?;
    for rank in &ranks {
        indices.push(rank.index)?;
    }
    Ok(indices)
}
