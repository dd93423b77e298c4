//! What the witness leaves.

use aea_disk::SureDisk;
use aea_io::SureSink;
use aea_repair::Outcome;

/// The disk at the end, after how many bytes the stream was found to end inside a frame, what the repair returned and its
/// report, and what was got.
#[derive(Drop)]
pub struct Witness {
    pub disk: SureDisk,
    pub cut_at: u64,
    pub outcome: Outcome,
    pub report: SureSink,
    pub got: SureSink,
}
