//! What the words of the device's laws mean, each the contract of a function that does nothing.

ghost use Rattle.std.specs.Prelude.{◌≡◌, ◌≢◌, ℕ, [], ◌∷◌, List, Some, None};
ghost use Rattle.std.specs.FinMap.{get, insert};
ghost use Rattle.gpu_device.specs.declared.metal.types.HeapDescriptor.{HeapDescriptor};
ghost use Rattle.gpu_device.specs.declared.metal.types.MTLHeap.{MTLHeap};
ghost use Rattle.gpu_device.specs.Metal.{Entry, Heap, Set, Held, without_heap, with_member, without_member, with_commit, add_member, remove_member, members_of, committed_of};

/// No change of one entry changes another.
pub fn changes_leave_others()
    ensures added { (held : Held) (number other : ℕ) (e : Entry) → other ≢ number
        → get (insert held number e) other ≡ get held other }
    ensures released { (held : Held) (number other : ℕ) → other ≢ number
        → get (without_heap held number) other ≡ get held other }
    ensures member_added { (held : Held) (set : ℕ) (heap : MTLHeap) (other : ℕ) → other ≢ set
        → get (with_member held set heap) other ≡ get held other }
    ensures member_removed { (held : Held) (set : ℕ) (heap : MTLHeap) (other : ℕ) → other ≢ set
        → get (without_member held set heap) other ≡ get held other }
    ensures committed { (held : Held) (set other : ℕ) → other ≢ set
        → get (with_commit held set) other ≡ get held other }
{}

/// A heap that was new and was given back leaves what was held first; what isn't held goes without a change.
pub fn giving_back_undoes()
    ensures heap { (held : Held) (number : ℕ) (desc : HeapDescriptor) (size : ℕ)
        → get held number ≡ None → without_heap (insert held number (Heap desc size)) number
        ≡ held }
    ensures nothing { (held : Held) (number : ℕ) → get held number ≡ None
        → without_heap held number ≡ held }
{}

/// What the calls of a set leave of its members.
pub fn sets_change()
    ensures added { (held : Held) (set : ℕ) (heap : MTLHeap) (members committed : List MTLHeap)
        → get held set ≡ Some (Set members committed)
        → get (with_member held set heap) set ≡ Some (Set (add_member members heap) committed) }
    ensures removed { (held : Held) (set : ℕ) (heap : MTLHeap) (members committed : List MTLHeap)
        → get held set ≡ Some (Set members committed)
        → get (without_member held set heap) set
        ≡ Some (Set (remove_member members heap) committed) }
    ensures committed { (held : Held) (set : ℕ) (members committed : List MTLHeap)
        → get held set ≡ Some (Set members committed)
        → get (with_commit held set) set ≡ Some (Set members members) }
{}
