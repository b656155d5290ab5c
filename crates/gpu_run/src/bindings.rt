//! What a caller's numbers stand for.

ghost use Rattle.std.specs.Prelude.{◌≡◌, ℕ, ◌≤◌, nat_eq, cond, Some};
ghost use Rattle.std.specs.Map.{lookup};
ghost use Rattle.std.specs.HashMap.{spare};

use std::collections::HashMap;

/// Binds a number that there is room for.
pub fn bind<T: Drop>(bound: &mut HashMap<u64, T>, key: u64, value: T)
    requires { 1 ≤ spare bound.old }
    ensures { (k : ℕ) → lookup (nat_eq k) bound.new.entries
        ≡ cond (nat_eq key k) (Some value) (lookup (nat_eq k) bound.old.entries) }
{
    match bound.insert(key, value) {
        Ok(_) => {}
        Err(_) => unreachable!(),
    }
}
