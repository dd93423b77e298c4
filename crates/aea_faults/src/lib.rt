//! Counts of faults: a source, a sink or a disk counts each call of it that failed, and returns a fault only
//! where that count rose.
//!
//! Promises to streams and disks one function, `risen`: the count after one more fault, which never falls and stops at
//! the greatest u64. Read in `specs/`: `Faults` (`Rose`, `HasCause`). It rests on no other crate.
#![tactic(auto)]

ghost use Rattle.std.specs.Prelude.{◌≡◌, ◌+◌, ◌-◌, ◌^◌, ◌≤◌, min};
ghost use Rattle.aea_faults.specs.Faults.{Rose};

/// The count after one more fault. It stops at the greatest u64.
pub fn risen(count: u64) -> u64
    ensures value { result ≡ min (count + 1) (2 ^ 64 - 1) }
    ensures rose { Rose count result }
    ensures kept { count ≤ result }
{
    count.saturating_add(1)
}
