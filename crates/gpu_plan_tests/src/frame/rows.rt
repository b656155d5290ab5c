//! Worked plans: where resources go, in which order they were placed, and whose bytes they reuse.

ghost use Rattle.std.specs.Prelude.{◌<◌};

use crate::frame::{frame, resource};
use gpu_plan::{
    HeapPlan, Kind, Order, Placed, PlanError, Resource, are_valid, least_offset, plan,
    plan_in_order, reused_by, reuses,
};
use std::alloc::Global;
use std::process::Abort;
use std::test::Fail;

/// The plan of resources that are fit for one.
fn planned(alloc: Global, resources: &[Resource], page: u64) -> Result<HeapPlan, Fail>
    requires { 0 < page }
{
    if !are_valid(resources) {
        return Err(Fail::new("a resource isn't valid"));
    }
    match plan(alloc, resources, page) {
        Ok(plan) => Ok(plan),
        Err(_) => Err(Fail::new("there is no plan")),
    }
}

/// Looks that a plan is as it should be.
fn expect_plan(
    rt: &impl Abort,
    plan: &HeapPlan,
    offsets: &[u64],
    heap: u64,
    order: Order,
    peak: u64,
) {
    assert_eq!(rt; plan.offsets.as_slice(), offsets);
    assert_eq!(rt; plan.heap, heap);
    assert_eq!(rt; plan.order, order);
    assert_eq!(rt; plan.peak, peak);
}

// By size the heap has 360 bytes: 1, 2, 5, 0, 4 and 3 lie at 0, 128, 0, 256, 320 (all pages before are those of optimal ones) and 96. By
// area (2, 0, 1, 5, 4, 3: 384, 256, 256, 192, 120 and 64) it has the peak's 320.
#[test]
fn a_frame_has_the_peak_as_its_heap(rt: HostRuntime) -> Result<(), Fail> {
    let frame = frame();
    let plan = planned(rt.alloc(), &frame, 64)?;
    expect_plan(
        &rt,
        &plan,
        &[128, 192, 0, 256, 192, 0],
        320,
        Order::Area,
        320,
    );
    Ok(())
}

// Without pages the bloom follows the histogram at the next multiple of 16.
#[test]
fn a_frame_without_pages_has_the_peak_too(rt: HostRuntime) -> Result<(), Fail> {
    let frame = frame();
    let plan = planned(rt.alloc(), &frame, 1)?;
    expect_plan(
        &rt,
        &plan,
        &[128, 192, 0, 240, 192, 0],
        320,
        Order::Area,
        320,
    );
    Ok(())
}

#[test]
fn a_resource_reuses_bytes_of_those_before_it(rt: HostRuntime) -> Result<(), Fail> {
    let frame = frame();
    let plan = planned(rt.alloc(), &frame, 64)?;
    if plan.offsets.len() != frame.len() {
        return Err(Fail::new("a resource has no offset"));
    }
    let expected: [&[usize]; 6] = [&[], &[], &[], &[1], &[1], &[2]];
    for (index, earlier) in expected.iter().enumerate() {
        let found = reuses(rt.alloc(), &frame, &plan, index)?;
        assert_eq!(rt; found.as_slice(), *earlier, "resource {index}");
        let found = reused_by(rt.alloc(), &frame, &plan.offsets, index)?;
        assert_eq!(rt; found.as_slice(), *earlier, "resource {index}");
    }
    Ok(())
}

#[test]
fn no_resources_need_no_heap(rt: HostRuntime) -> Result<(), Fail> {
    let plan = planned(rt.alloc(), &[], 64)?;
    expect_plan(&rt, &plan, &[], 0, Order::Size, 0);
    Ok(())
}

#[test]
fn of_equal_heaps_the_first_order_has_it(rt: HostRuntime) -> Result<(), Fail> {
    let resources = [
        resource(100, 4, Kind::Linear, 0, 0),
        resource(200, 4, Kind::Optimal, 1, 7),
        resource(100, 4, Kind::Linear, 8, 8),
    ];
    let plan = planned(rt.alloc(), &resources, 1024)?;
    expect_plan(&rt, &plan, &[0, 0, 0], 200, Order::Size, 200);
    Ok(())
}

// Passes that touch in one pass overlap.
#[test]
fn resources_of_one_pass_lie_apart(rt: HostRuntime) -> Result<(), Fail> {
    let resources = [
        resource(30, 8, Kind::Linear, 0, 1),
        resource(20, 8, Kind::Linear, 1, 2),
        resource(10, 8, Kind::Linear, 2, 3),
    ];
    let plan = planned(rt.alloc(), &resources, 64)?;
    expect_plan(&rt, &plan, &[0, 32, 0], 52, Order::Size, 50);
    Ok(())
}

#[test]
fn a_heap_past_64_bits_is_too_large(rt: HostRuntime) -> Result<(), Fail> {
    let half = 1 << 63;
    let alive_together = [
        resource(half, 1, Kind::Linear, 0, 1),
        resource(half, 1, Kind::Linear, 1, 2),
    ];
    if !are_valid(&alive_together) {
        return Err(Fail::new("a resource isn't valid"));
    }
    let told = matches!(
        plan(rt.alloc(), &alive_together, 1),
        Err(PlanError::TooLarge)
    );
    assert!(rt; told, "the heap is told to be too large");
    let apart = [
        resource(half, 1, Kind::Linear, 0, 0),
        resource(half, 1, Kind::Linear, 1, 2),
    ];
    let plan = planned(rt.alloc(), &apart, 1)?;
    expect_plan(&rt, &plan, &[0, 0], half, Order::Size, half);
    Ok(())
}

#[test]
fn resources_are_placed_in_their_order(rt: HostRuntime) -> Result<(), Fail> {
    let resources = [
        resource(40, 8, Kind::Linear, 0, 1),
        resource(16, 16, Kind::Optimal, 1, 2),
        resource(64, 1, Kind::Linear, 2, 2),
    ];
    if !are_valid(&resources) {
        return Err(Fail::new("a resource isn't valid"));
    }
    let Some(placed) = plan_in_order(rt.alloc(), &resources, 64)? else {
        return Err(Fail::new("there is no plan"));
    };
    let expected: [Placed; 3] = [
        Placed {
            resource: resources[0],
            offset: 0,
        },
        Placed {
            resource: resources[1],
            offset: 64,
        },
        Placed {
            resource: resources[2],
            offset: 0,
        },
    ];
    assert_eq!(rt; placed.as_slice(), expected.as_slice());
    // behind the linear one, and behind the optimal one on the page behind it
    let linear = least_offset(&placed, &resource(8, 8, Kind::Linear, 1, 1), 64);
    let optimal = least_offset(&placed, &resource(8, 8, Kind::Optimal, 1, 1), 64);
    assert_eq!(rt; linear, Some(40));
    assert_eq!(rt; optimal, Some(80));
    Ok(())
}

#[test]
fn what_plans_ask_is_told(rt: HostRuntime) {
    let valid = resource(1, 1, Kind::Linear, 0, 0);
    assert!(rt; are_valid(&[valid]));
    assert!(rt; !are_valid(&[valid, resource(0, 1, Kind::Linear, 0, 0)]));
    assert!(rt; !are_valid(&[valid, resource(1, 0, Kind::Linear, 0, 0)]));
    assert!(rt; !are_valid(&[valid, resource(1, 1, Kind::Linear, 2, 1)]));
}
