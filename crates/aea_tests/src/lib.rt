//! Tests of each command over disks and streams that fail, stop or end early: one table of runs.
#![tactic(auto)]

#[cfg(test)]
mod cases;
#[cfg(test)]
mod devices;
#[cfg(test)]
mod mirrored;
#[cfg(test)]
mod standing;
#[cfg(test)]
mod streams;
