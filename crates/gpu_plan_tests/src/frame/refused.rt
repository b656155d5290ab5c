//! A plan while the host refuses one request for memory: with ample memory the test passes; where a request was refused it fails with a
//! text of its own (`tools/check_refused`).

use crate::frame::frame;
use gpu_plan::{MemoryNeeds, Order, PlanError, are_valid, plan, reuses, sets_of};
use std::test::Fail;

/// What a run ends with in which one request was refused.
const TOLD: &str = "one call was refused, and nothing was lost";

#[test]
fn a_refused_plan_can_be_asked_for_again(rt: HostRuntime) -> Result<(), Fail> {
    let frame = frame();
    if !are_valid(&frame) {
        return Err(Fail::new("a resource isn't valid"));
    }
    let (plan, refused) = match plan(rt.alloc(), &frame, 64) {
        Ok(plan) => (plan, false),
        Err(PlanError::TooLarge) => return Err(Fail::new("the heap is told to be too large")),
        Err(PlanError::HostOutOfMemory) => match plan(rt.alloc(), &frame, 64) {
            Ok(plan) => (plan, true),
            Err(_) => return Err(Fail::new("more than one call was refused")),
        },
    };
    if plan.offsets.len() != frame.len() {
        return Err(Fail::new("a resource has no offset"));
    }
    let (reused, refused) = match reuses(rt.alloc(), &frame, &plan, 5) {
        Ok(reused) => (reused, refused),
        Err(_) if refused => return Err(Fail::new("more than one call was refused")),
        Err(_) => match reuses(rt.alloc(), &frame, &plan, 5) {
            Ok(reused) => (reused, true),
            Err(_) => return Err(Fail::new("more than one call was refused")),
        },
    };
    let served = plan.heap == 320
        && plan.order == Order::Area
        && reused.as_slice() == [2].as_slice();
    match (served, refused) {
        (true, false) => Ok(()),
        (true, true) => Err(Fail::new(TOLD)),
        (false, _) => Err(Fail::new("the plan is another one")),
    }
}

#[test]
fn refused_sets_can_be_asked_for_again(rt: HostRuntime) -> Result<(), Fail> {
    let resources = [1, 2, 3].map(|memory_type_bits| MemoryNeeds {
        memory_type_bits,
        dedicated: false,
    });
    let (sets, refused) = match sets_of(rt.alloc(), &resources) {
        Ok(sets) => (sets, false),
        Err(_) => match sets_of(rt.alloc(), &resources) {
            Ok(sets) => (sets, true),
            Err(_) => return Err(Fail::new("more than one call was refused")),
        },
    };
    match (sets.as_slice() == [0, 1, 0].as_slice(), refused) {
        (true, false) => Ok(()),
        (true, true) => Err(Fail::new(TOLD)),
        (false, _) => Err(Fail::new("the sets are others")),
    }
}
