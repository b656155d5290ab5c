//! Bytes of a memory that are written over.

ghost use Rattle.std.specs.Prelude.{◌≡◌, ℕ, ◌+◌, ◌≤◌, length, take, drop};
ghost use Rattle.gpu_ring.specs.Line.{Apart};

/// Writes these bytes over those from there on.
pub fn write_at(memory: &mut [u8], offset: usize, bytes: &[u8])
    requires inside { offset + length bytes.now ≤ length memory.old }
    ensures written { take (length bytes.now) (drop offset memory.new) ≡ bytes.now }
    ensures others { (o m : ℕ) → Apart o m offset (length bytes.now)
        → take m (drop o memory.new) ≡ take m (drop o memory.old) }
    ensures long { length memory.new ≡ length memory.old }
{
    memory[offset..offset + bytes.len()].copy_from_slice(bytes);
}
