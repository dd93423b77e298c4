//! Counts of faults.

use aea_faults::risen;

#[test]
fn stops_at_the_end(rt: HostRuntime) {
    for (count, want) in [
        (0, 1),
        (41, 42),
        (u64::MAX - 1, u64::MAX),
        (u64::MAX, u64::MAX),
    ] {
        assert!(rt; risen(count) == want, "after {count}");
    }
}
