//! The numbers of a rehearsal.

/// How many blocks the archive had, how many were damaged, and how many of these were restored by single equations, restored
/// by sums of equations, and lost.
#[derive(Clone, Copy, Debug, PartialEq, Eq)]
pub struct Rehearsal {
    pub blocks: u32,
    pub damaged: u32,
    pub peeled: u32,
    pub solved: u32,
    pub lost: u32,
}
