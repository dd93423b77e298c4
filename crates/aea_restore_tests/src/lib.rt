//! Tests of repairs over disks in memory: blocks that others give written back, whole repairs with their reports, and payloads that
//! are computed without a repair.
#![tactic(auto)]

#[cfg(test)]
mod archives;
#[cfg(test)]
mod computing;
#[cfg(test)]
mod repairing;
#[cfg(test)]
mod restoring;
