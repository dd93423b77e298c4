//! Tests of what uses the system: counts of faults, streams, and disks in memory and in a folder.
#![tactic(auto)]

#[cfg(test)]
mod commits;
#[cfg(test)]
mod counts;
#[cfg(test)]
mod filling;
#[cfg(test)]
mod folder;
#[cfg(test)]
mod memory;
#[cfg(test)]
mod putting;
#[cfg(test)]
mod standard;
#[cfg(test)]
mod sure;
#[cfg(test)]
mod whole;
