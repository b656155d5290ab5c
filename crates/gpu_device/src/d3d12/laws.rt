//! What the words of the device's laws mean, each the contract of a function that does nothing.

ghost use Rattle.std.specs.Prelude.{◌≡◌, ◌≢◌, ℕ, Some, None};
ghost use Rattle.std.specs.FinMap.{get, insert, remove};
ghost use Rattle.gpu_device.specs.declared.d3d12.types.HeapDesc.{HeapDesc};
ghost use Rattle.gpu_device.specs.D3D12.{Entry, Heap, Committed, Placed, Held, without_heap, without_resource};

/// A new entry is found under its number.
pub fn granting_adds()
    ensures { (held : Held) (number : ℕ) (e : Entry) → get (insert held number e) number ≡ Some e }
{}

/// No change of one entry changes another.
pub fn changes_leave_others()
    ensures added { (held : Held) (number other : ℕ) (e : Entry) → other ≢ number
        → get (insert held number e) other ≡ get held other }
    ensures heap_released { (held : Held) (number other : ℕ) → other ≢ number
        → get (without_heap held number) other ≡ get held other }
    ensures resource_released { (held : Held) (number other : ℕ) → other ≢ number
        → get (without_resource held number) other ≡ get held other }
{}

/// An entry that was new and was given back leaves what was held first.
pub fn giving_back_undoes()
    ensures heap { (held : Held) (number : ℕ) (desc : HeapDesc) → get held number ≡ None
        → without_heap (insert held number (Heap desc)) number ≡ held }
    ensures committed { (held : Held) (number size : ℕ) → get held number ≡ None
        → without_resource (insert held number (Committed size)) number ≡ held }
    ensures placed { (held : Held) (number heap offset size : ℕ) → get held number ≡ None
        → without_resource (insert held number (Placed heap offset size)) number ≡ held }
{}

/// What is given back by its own kind's call is gone.
pub fn giving_back_removes()
    ensures heap { (held : Held) (number : ℕ) (desc : HeapDesc) → get held number ≡ Some (Heap desc)
        → without_heap held number ≡ remove held number }
    ensures committed { (held : Held) (number size : ℕ) → get held number ≡ Some (Committed size)
        → without_resource held number ≡ remove held number }
    ensures placed { (held : Held) (number heap offset size : ℕ)
        → get held number ≡ Some (Placed heap offset size)
        → without_resource held number ≡ remove held number }
{}

/// Giving back what isn't held changes nothing, and nor does a call of the other kind.
pub fn giving_back_nothing()
    ensures no_heap { (held : Held) (number : ℕ) → get held number ≡ None
        → without_heap held number ≡ held }
    ensures no_resource { (held : Held) (number : ℕ) → get held number ≡ None
        → without_resource held number ≡ held }
    ensures heap_stays { (held : Held) (number : ℕ) (desc : HeapDesc)
        → get held number ≡ Some (Heap desc) → without_resource held number ≡ held }
    ensures committed_stays { (held : Held) (number size : ℕ)
        → get held number ≡ Some (Committed size) → without_heap held number ≡ held }
    ensures placed_stays { (held : Held) (number heap offset size : ℕ)
        → get held number ≡ Some (Placed heap offset size) → without_heap held number ≡ held }
{}
