//! What the words of the device's laws mean, each the contract of a function that does nothing.

ghost use Rattle.std.specs.Prelude.{◌≡◌, ◌≢◌, ℕ, ◌+◌, ◌≤◌, ◌⊎◌, List, length, Some, None};
ghost use Rattle.std.specs.FinMap.{get, insert, remove};
ghost use Rattle.gpu_device.specs.Held.{Entry, Held, HasRange, bytes_of, size_of, range_of, IsUnmapped, mapped_with, unmapped, with_range};

/// What was written into a range is read there.
pub fn write_is_read()
    ensures { (held : Held) (number start : ℕ) (ws : List ℕ)
        → HasRange (bytes_of held number) start (length ws)
        → range_of (with_range held number start ws) number start (length ws) ≡ Some ws }
{}

/// A write leaves every byte of other memories, and every byte of its own beside the range.
pub fn write_leaves_other_bytes()
    ensures { (held : Held) (number start : ℕ) (ws : List ℕ) (other place len : ℕ)
        → HasRange (bytes_of held number) start (length ws)
        → (other ≢ number) ⊎ ((place + len ≤ start) ⊎ (start + length ws ≤ place))
        → range_of (with_range held number start ws) other place len
        ≡ range_of held other place len }
{}

/// A write leaves the ranges that are there.
pub fn write_leaves_ranges()
    ensures { (held : Held) (number start : ℕ) (ws : List ℕ) (other place len : ℕ)
        → HasRange (bytes_of held other) place len
        → HasRange (bytes_of (with_range held number start ws) other) place len }
{}

/// No change of one memory changes another.
pub fn changes_leave_others()
    ensures added { (held : Held) (number other : ℕ) (e : Entry) → other ≢ number
        → get (insert held number e) other ≡ get held other }
    ensures mapped { (held : Held) (number other : ℕ) (xs : List ℕ) → other ≢ number
        → get (mapped_with held number xs) other ≡ get held other }
    ensures written { (held : Held) (number other start : ℕ) (ws : List ℕ) → other ≢ number
        → get (with_range held number start ws) other ≡ get held other }
    ensures unmapped { (held : Held) (number other : ℕ) → other ≢ number
        → get (unmapped held number) other ≡ get held other }
    ensures removed { (held : Held) (number other : ℕ) → other ≢ number
        → get (remove held number) other ≡ get held other }
{}

/// A mapped memory has the bytes that it was given, and its size.
pub fn mapping_gives_bytes()
    ensures bytes { (held : Held) (number : ℕ) (xs : List ℕ) → IsUnmapped held number
        → bytes_of (mapped_with held number xs) number ≡ Some xs }
    ensures size { (held : Held) (number : ℕ) (xs : List ℕ)
        → size_of (mapped_with held number xs) number ≡ size_of held number }
{}

/// A memory that was new and was given back leaves what was held first, whatever was done to it.
pub fn giving_back_undoes()
    ensures added { (held : Held) (number : ℕ) (e : Entry) → get held number ≡ None
        → remove (insert held number e) number ≡ held }
    ensures mapped { (held : Held) (number : ℕ) (xs : List ℕ)
        → remove (mapped_with held number xs) number ≡ remove held number }
    ensures written { (held : Held) (number start : ℕ) (ws : List ℕ)
        → remove (with_range held number start ws) number ≡ remove held number }
    ensures unmapped { (held : Held) (number : ℕ)
        → remove (unmapped held number) number ≡ remove held number }
{}

/// Giving back a memory that isn't held changes nothing.
pub fn giving_back_nothing()
    ensures removed { (held : Held) (number : ℕ) → get held number ≡ None
        → remove held number ≡ held }
    ensures unmapped { (held : Held) (number : ℕ) → get held number ≡ None
        → unmapped held number ≡ held }
{}
