//! Numbers that look random, and are the same in each run.

/// One step of the linear congruential generator of Knuth's MMIX.
pub fn step(x: u64) -> u64 {
    x.wrapping_mul(6_364_136_223_846_793_005)
        .wrapping_add(1_442_695_040_888_963_407)
}
