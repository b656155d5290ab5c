//! What is one value: an order, its plan, and the best plan. What holds wherever no two resources meet.

ghost use Rattle.std.specs.Prelude.{◌≡◌, ◌≢◌, ℕ, ◌+◌, ◌%◌, ◌<◌, ◌≤◌, ◌⊎◌, List, All, length, slice_index};
ghost use Rattle.gpu_plan.specs.Plan.{IsValid, ShareByte, SharePage, resource_at};
ghost use Rattle.gpu_plan.specs.Memory.{AreMixed, IsMemoryFor, LiesBeside};
ghost use Rattle.gpu_plan.specs.declared.memory.Memory.{Memory};
ghost use Rattle.gpu_plan.specs.declared.resource.Kind.{Kind};
ghost use Rattle.gpu_plan.specs.Passes.{IsPeak};
ghost use Rattle.gpu_plan.specs.Order.{IsOrder};
ghost use Rattle.gpu_plan.specs.OrderPlan.{IsPlanBy, IsHeap};
ghost use Rattle.gpu_plan.specs.Best.{IsBestOf, NoneMeet, all_orders};
ghost use Rattle.gpu_plan.specs.Reuse.{Reuses};
ghost use Rattle.gpu_plan.specs.declared.resource.Resource.{Resource};
ghost use Rattle.gpu_plan.specs.declared.order.Order.{Order};

use crate::order::Order;

/// The indices of resources in an order are one list.
pub fn order_is_one(order: Order)
    ensures { (resources : List Resource) (indices others : List ℕ) → IsOrder order resources indices
        → IsOrder order resources others → indices ≡ others }
{}

/// The offsets of an order's plan are one list.
pub fn plan_is_one(page: u64, order: Order)
    ensures { (resources : List Resource) (offsets others : List ℕ)
        → IsPlanBy page order resources offsets → IsPlanBy page order resources others
        → offsets ≡ others }
{}

/// The best plan is one: its order, its offsets and its heap.
pub fn best_is_one(page: u64)
    ensures { (resources : List Resource) (order other : Order) (offsets others : List ℕ) (heap size : ℕ)
        → IsBestOf page resources all_orders order offsets heap
        → IsBestOf page resources all_orders other others size
        → (order ≡ other) × (offsets ≡ others) × (heap ≡ size) }
{}

/// However resources lie, if no two meet: their heap isn't below the peak.
pub fn no_heap_is_below_the_peak(page: u64)
    ensures { (resources : List Resource) (offsets : List ℕ) (heap peak : ℕ)
        → NoneMeet page resources offsets → IsHeap resources offsets heap
        → IsPeak resources peak → peak ≤ heap }
{}

/// Of two resources that share a byte one reuses the other's: it begins after the other's life.
pub fn shared_bytes_are_reused(page: u64)
    ensures { (resources : List Resource) (offsets : List ℕ) (i j : ℕ)
        → NoneMeet page resources offsets → i < length resources → j < length resources → i ≢ j
        → ShareByte (slice_index offsets i) (resource_at resources i).size
        (slice_index offsets j) (resource_at resources j).size
        → Reuses resources offsets i j ⊎ Reuses resources offsets j i }
{}

/// Where memory for a heap lies beside another piece as its allocator promises, and begins with a page where it is of whole ones: that piece
/// shares no page with a resource of the heap that is of another kind.
pub fn no_page_is_shared_beside_a_heap(page: u64)
    requires { 0 < page }
    ensures { (resources : List Resource) (offsets : List ℕ) (heap : ℕ) (m : Memory) (place i : ℕ) (kind : Kind) (p n : ℕ)
        → All IsValid resources → IsHeap resources offsets heap
        → IsMemoryFor page resources heap m → (AreMixed resources → place % page ≡ 0)
        → LiesBeside page m place kind p n → i < length resources
        → (resource_at resources i).kind ≢ kind
        → SharePage page (place + slice_index offsets i) (resource_at resources i).size p n → ⊥ }
{}
