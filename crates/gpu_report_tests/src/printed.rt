//! Tests of printed texts. What they look at is told by a `bool`: a proof of a call that may abort costs more than the call itself.

ghost use Rattle.std.specs.Prelude.{◌≡◌, ◌≢◌, ◌<◌, IsTrue};
ghost use Rattle.std.specs.Int.{is_power_of_two};

use gpu_core::{
    AllocationReport, AllocationType, AllocatorReport, DedicatedBlockAllocator, FreeListAllocator,
    MemoryBlockReport, SubAllocator,
};
use gpu_plan::{Kind, Placed, Resource};
use gpu_report::{BlockView, BlocksJson, BlocksSvg, PlanSvg, ReportJson, ReportSvg, ResourceView};
use serde_json::Value;
use std::alloc::Global;
use std::fmt::Display;
use std::process::Abort;

const NAME: &str = "a<b&c\"d\\e>\n\u{1}ü\u{fffd}\u{fffe}\u{ffff}";

/// Looks that each step of a test went as it should; a failed one is told by its place.
fn check(rt: &impl Abort, steps: &[bool]) {
    for (place, step) in steps.iter().enumerate() {
        assert!(rt; *step, "step {place}");
    }
}

fn text_of<D: Display>(alloc: Global, value: &D) -> Option<String> {
    match value.to_string(alloc) {
        Ok(text) => Some(text),
        Err(_) => None,
    }
}

/// Whether the value prints this text.
fn prints<D: Display>(alloc: Global, value: &D, want: &str) -> bool {
    match text_of(alloc, value) {
        Some(text) => text.as_str() == want,
        None => false,
    }
}

/// Whether these stand in what the value prints.
fn prints_among<D: Display>(alloc: Global, value: &D, want: &[&str]) -> bool {
    match text_of(alloc, value) {
        Some(text) => {
            for part in want {
                if !text.contains(*part) {
                    return false;
                }
            }
            true
        }
        None => false,
    }
}

/// What another reader reads.
fn read(alloc: Global, text: &str) -> Option<Value> {
    match Value::from_str(alloc, text) {
        Ok(value) => Some(value),
        Err(_) => None,
    }
}

/// What another reader reads, which it prints as it was.
fn read_back<D: Display>(alloc: Global, value: &D) -> Option<Value> {
    let text = text_of(alloc, value)?;
    let value = read(alloc, text.as_str())?;
    if prints(alloc, &value, text.as_str()) {
        Some(value)
    } else {
        None
    }
}

/// Whether the numbers at these places of what was read are these, and the text at this one.
fn reads_as(value: &Value, numbers: &[(&str, u64)], at: &str, name: &str) -> bool {
    for row in numbers {
        let (path, number) = *row;
        if value.pointer(path).and_then(Value::as_u64) != Some(number) {
            return false;
        }
    }
    value.pointer(at).and_then(Value::as_str) == Some(name)
}

/// Whether another reader reads this.
fn reads_back<D: Display>(
    alloc: Global,
    value: &D,
    numbers: &[(&str, u64)],
    at: &str,
    name: &str,
) -> bool {
    match read_back(alloc, value) {
        Some(read) => reads_as(&read, numbers, at, name),
        None => false,
    }
}

/// Whether a block with pages of one byte has a place for a piece.
fn takes(
    list: &mut FreeListAllocator,
    size: u64,
    alignment: u64,
    kind: AllocationType,
    name: &str,
) -> bool
    requires sized { 0 < size }
    requires aligned { IsTrue (is_power_of_two alignment) }
    requires piece { kind ≢ AllocationType.Free }
    requires paged { list.old.block.granularity ≡ 1 }
    ensures paged { list.new.block.granularity ≡ 1 }
{
    list.allocate(size, alignment, kind, 1, name).is_ok()
}

/// A block with a piece of 300 bytes, and one of 1000 bytes behind padding.
fn two_pieces(alloc: Global, name: &str) -> Option<SubAllocator> {
    let one = 1u64;
    let alignment = 256u64;
    if !one.is_power_of_two() || !alignment.is_power_of_two() {
        return None;
    }
    let mut list = FreeListAllocator::new(alloc, 4_194_304, one).ok()?;
    let took = takes(&mut list, 300, one, AllocationType::Linear, name);
    if took && takes(&mut list, 1000, alignment, AllocationType::NonLinear, "b") {
        Some(SubAllocator::FreeList(list))
    } else {
        None
    }
}

/// A block in slot `slot` of memory type 3.
fn view(slot: usize, block: &SubAllocator) -> BlockView<'_> {
    BlockView {
        memory_type: 3,
        slot,
        page_size: 1,
        block,
    }
}

/// The numbers of a view of two pieces.
const TWO_PIECES: &[(&str, u64)] = &[
    ("/blocks/0/pieces/1/offset", 512),
    ("/blocks/0/pieces/1/padding", 212),
    ("/blocks/0/pieces/1/size", 1000),
    ("/blocks/0/gaps/0/start", 1512),
    ("/blocks/0/gaps/0/size", 4_192_792),
    ("/blocks/0/memory_type", 3),
    ("/blocks/0/statistics/piece_bytes", 1512),
];

/// Whether the view of two pieces is read as it is.
fn blocks_read_back(alloc: Global) -> bool {
    match two_pieces(alloc, NAME) {
        Some(block) => reads_back(
            alloc,
            &BlocksJson(&[view(2, &block)]),
            TWO_PIECES,
            "/blocks/0/pieces/0/name",
            NAME,
        ),
        None => false,
    }
}

/// A report of one piece.
fn report(alloc: Global) -> Option<AllocatorReport> {
    let row = AllocationReport {
        name: String::from_str(alloc, NAME).ok()?,
        offset: 9_007_199_254_740_993,
        size: u64::MAX,
    };
    let block = MemoryBlockReport {
        size: u64::MAX,
        allocations: 0..1,
    };
    Some(AllocatorReport {
        allocations: vec![in alloc; row].ok()?,
        blocks: vec![in alloc; block].ok()?,
        total_allocated_bytes: 5,
        total_capacity_bytes: u64::MAX,
    })
}

/// The numbers of a report of one piece.
const ONE_PIECE: &[(&str, u64)] = &[
    ("/allocations/0/offset", 9_007_199_254_740_993),
    ("/allocations/0/size", u64::MAX),
    ("/blocks/0/allocations/end", 1),
    ("/total_allocated_bytes", 5),
];

/// Whether that report is read as it is, and its name is written in a picture.
fn report_prints(alloc: Global) -> bool {
    match report(alloc) {
        Some(report) => {
            reads_back(
                alloc,
                &ReportJson(&report),
                ONE_PIECE,
                "/allocations/0/name",
                NAME,
            ) && prints_among(
                alloc,
                &ReportSvg(&report),
                &["bytes at 9007199254740993: a&lt;b&amp;c&quot;d\\e&gt;??ü\u{fffd}??</title>"],
            )
        }
        None => false,
    }
}

#[test]
fn blocks_and_reports_read_back(rt: HostRuntime) {
    let steps = [blocks_read_back(rt.alloc()), report_prints(rt.alloc())];
    check(&rt, &steps);
}

/// A block that is one piece's own.
fn dedicated(alloc: Global) -> Option<SubAllocator> {
    let mut block = DedicatedBlockAllocator::new(alloc, 1000);
    match block.allocate(1000, AllocationType::Linear, "c") {
        Ok(_) => Some(SubAllocator::Dedicated(block)),
        Err(_) => None,
    }
}

const EACH_FORM: &str =
    "{\"blocks\":[{\"gaps\":[{\"size\":4192792,\"start\":1512}],\"memory_type\":3,\"page_size\":1,\"pieces\":[{\"kind\":\"linear\",\"name\":\"a\",\"number\":2,\"offset\":0,\"padding\":0,\"size\":300},{\"kind\":\"nonlinear\",\"name\":\"b\",\"number\":3,\"offset\":512,\"padding\":212,\"size\":1000}],\"size\":4194304,\"slot\":0,\"statistics\":{\"gaps\":1,\"longest_gap\":4192792,\"piece_bytes\":1512,\"pieces\":2}},{\"gaps\":[],\"memory_type\":3,\"page_size\":1,\"pieces\":[{\"kind\":\"linear\",\"name\":\"c\",\"number\":1,\"offset\":0,\"padding\":0,\"size\":1000}],\"size\":1000,\"slot\":1,\"statistics\":{\"gaps\":0,\"longest_gap\":0,\"piece_bytes\":1000,\"pieces\":1}},{\"gaps\":[{\"size\":77,\"start\":0}],\"memory_type\":3,\"page_size\":1,\"pieces\":[],\"size\":77,\"slot\":2,\"statistics\":{\"gaps\":1,\"longest_gap\":77,\"piece_bytes\":0,\"pieces\":0}}],\"schema\":\"gpu_report.blocks\",\"version\":1}";

const FULL: &str =
    "type 3, slot 1: 1000 B, 1 pieces, 1000 B taken, 0 gaps, longest 0 B, not to scale</text>";

/// What is told of these blocks, beside an empty one.
fn three_print(alloc: Global, shared: &SubAllocator, full: &SubAllocator) -> bool {
    let empty = SubAllocator::Dedicated(DedicatedBlockAllocator::new(alloc, 77));
    let views = [view(0, shared), view(1, full), view(2, &empty)];
    prints(alloc, &BlocksJson(&views), EACH_FORM)
        && prints_among(alloc, &BlocksSvg(&views), &[FULL])
}

/// What is told of a block of each form.
fn each_form(alloc: Global) -> Option<bool> {
    let shared = two_pieces(alloc, "a")?;
    let full = dedicated(alloc)?;
    Some(three_print(alloc, &shared, &full))
}

const LARGE: &str = "type 0, slot 0: 8.0 EiB, 0 pieces, 0 B taken, 1 gaps, longest 8.0 EiB</text>";

/// A bar of an eighth is to scale.
const EIGHTH: &str = "type 0, slot 2: 1.0 EiB, 0 pieces, 0 B taken, 1 gaps, longest 1.0 EiB</text>";

/// What is told of a small block, and of an eighth of the large one, beside a large one.
fn beside_a_large_one(alloc: Global, small: &SubAllocator) -> bool {
    let large = SubAllocator::Dedicated(DedicatedBlockAllocator::new(
        alloc,
        9_223_372_036_854_775_808,
    ));
    let eighth = SubAllocator::Dedicated(DedicatedBlockAllocator::new(
        alloc,
        1_152_921_504_606_846_976,
    ));
    let views = [
        BlockView {
            memory_type: 0,
            ..view(0, &large)
        },
        BlockView {
            memory_type: 0,
            page_size: 1024,
            ..view(1, small)
        },
        BlockView {
            memory_type: 0,
            ..view(2, &eighth)
        },
    ];
    prints_among(
        alloc,
        &BlocksSvg(&views),
        &[LARGE, "pages of 1.0 KiB, not to scale</text>", EIGHTH],
    )
}

/// The same, where there is one.
fn large_and_small(alloc: Global) -> Option<bool> {
    let small = two_pieces(alloc, NAME)?;
    Some(beside_a_large_one(alloc, &small))
}

const NO_BLOCKS: &str = "{\"blocks\":[],\"schema\":\"gpu_report.blocks\",\"version\":1}";

#[test]
fn blocks_of_each_form_and_none(rt: HostRuntime) {
    let alloc = rt.alloc();
    let steps = [
        each_form(alloc) == Some(true),
        large_and_small(alloc) == Some(true),
        prints(alloc, &BlocksJson(&[]), NO_BLOCKS),
    ];
    check(&rt, &steps);
}

/// A row of many.
fn row(alloc: Global, nth: usize) -> Option<AllocationReport> {
    Some(AllocationReport {
        name: String::from_str(alloc, LONG).ok()?,
        offset: nth as u64,
        size: 7,
    })
}

/// A report of many blocks with a piece each.
fn many(alloc: Global) -> Option<AllocatorReport> {
    let mut allocations = Vec::new(alloc);
    let mut blocks = Vec::new(alloc);
    for nth in 0..130usize {
        allocations.push(row(alloc, nth)?).ok()?;
        let block = MemoryBlockReport {
            size: 1000,
            allocations: nth..nth + 1,
        };
        blocks.push(block).ok()?;
    }
    Some(AllocatorReport {
        allocations,
        blocks,
        total_allocated_bytes: 910,
        total_capacity_bytes: 130_000,
    })
}

const LONG: &str = "positions_and_normals_of_the_forest_behind_the_river";

/// The last numbers of many.
const LAST_OF_MANY: &[(&str, u64)] = &[
    ("/allocations/129/offset", 129),
    ("/allocations/129/size", 7),
    ("/blocks/129/size", 1000),
    ("/blocks/129/allocations/start", 129),
    ("/total_capacity_bytes", 130_000),
];

const LAST_TITLE: &str =
    "7 bytes at 129: positions_and_normals_of_the_forest_behind_the_river</title>";

/// What is told of many blocks.
fn many_print(alloc: Global) -> bool {
    match many(alloc) {
        Some(report) => {
            reads_back(
                alloc,
                &ReportJson(&report),
                LAST_OF_MANY,
                "/allocations/129/name",
                LONG,
            ) && prints_among(alloc, &ReportSvg(&report), &[LAST_TITLE])
        }
        None => false,
    }
}

#[test]
fn many_blocks(rt: HostRuntime) {
    check(&rt, &[many_print(rt.alloc())]);
}

/// A resource of so many bytes at an offset, in these passes.
fn planned(name: &str, kind: Kind, bytes: (u64, u64), passes: (u64, u64)) -> ResourceView<'_> {
    ResourceView {
        name,
        placed: Placed {
            resource: Resource {
                size: bytes.1,
                alignment: 1,
                kind,
                first: passes.0,
                last: passes.1,
            },
            offset: bytes.0,
        },
    }
}

/// In four passes and 128 bytes the first resource takes half of each, from the left and from below.
const OF_A_PLAN: &[&str] = &[
    ">2 resources in 4 passes: heap 128 B, peak 96 B</text>",
    "<rect class=\"linear\" x=\"0\" width=\"5000\" y=\"2250\" height=\"2250\"><title>linear, 64 bytes at 0, passes 0 to 1: a&lt;b</title></rect>\n<text x=\"30\" y=\"2370\">a&lt;b</text>\n",
    "<rect class=\"nonlinear\" x=\"2500\" width=\"7500\" y=\"0\" height=\"1125\"><title>nonlinear, 32 bytes at 96, passes 1 to 3: c</title></rect>\n<text x=\"2530\" y=\"120\">c</text>\n",
    "<path class=\"line\" d=\"M7500 0v4500\"/><text x=\"7530\" y=\"4630\">3</text>\n<path d=\"M0 1125h10000\"",
];

const MOST: u64 = 18_446_744_073_709_551_615;

/// The last byte and the last pass of 64 bits lie inside, without the name; a pass or an end behind them is drawn at theirs.
const LARGEST_OF_A_PLAN: &[&str] = &[
    ">2 resources in 18446744073709551615 passes: heap 15.9 EiB, peak 15.9 EiB</text>",
    "x=\"0\" width=\"10000\" y=\"0\" height=\"4500\"><title>linear, 18446744073709551615 bytes at 0, passes 0 to 18446744073709551615: all</title></rect>\n<text",
    "x=\"10000\" width=\"0\" y=\"0\" height=\"1\"><title>nonlinear, 1 bytes at 18446744073709551614, passes 18446744073709551615 to 18446744073709551615: end</title></rect>\n<path d=\"M0 0h10000\"",
];

const NO_PLAN: &[&str] = &[
    ">0 resources in 0 passes: heap 0 B, peak 0 B</text>",
    "<title>heap, 0 bytes</title></rect>\n<path d=\"M0 4500h10000\"",
];

/// What is told of these resources in a heap.
fn plan_prints(
    alloc: Global,
    resources: &[ResourceView<'_>],
    heap: u64,
    peak: u64,
    want: &[&str],
) -> bool {
    let picture = PlanSvg {
        resources,
        heap,
        peak,
    };
    prints_among(alloc, &picture, want)
}

#[test]
fn plans(rt: HostRuntime) {
    let alloc = rt.alloc();
    let two = [
        planned("a<b", Kind::Linear, (0, 64), (0, 1)),
        planned("c", Kind::Optimal, (96, 32), (1, 3)),
    ];
    let largest = [
        planned("all", Kind::Linear, (0, MOST), (0, MOST)),
        planned("end", Kind::Optimal, (MOST - 1, 1), (MOST, MOST)),
    ];
    let steps = [
        plan_prints(alloc, &two, 128, 96, OF_A_PLAN),
        plan_prints(alloc, &largest, MOST, MOST, LARGEST_OF_A_PLAN),
        plan_prints(alloc, &[], 0, 0, NO_PLAN),
    ];
    check(&rt, &steps);
}
