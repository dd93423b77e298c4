//! Tests of whole runs of `get` and `fetch`: objects that are got back and listed, and that are fetched from damaged archives.
//! Worked examples, random objects, an object in parts, random damage against a plain elimination, digests that clash, and disks,
//! outputs and cells that fail or change under way.
#![tactic(auto)]

#[cfg(test)]
mod archives;
#[cfg(test)]
mod changed;
#[cfg(test)]
mod clashes;
#[cfg(test)]
mod examples;
#[cfg(test)]
mod failing;
#[cfg(test)]
mod getting;
#[cfg(test)]
mod got_back;
#[cfg(test)]
mod pages;
#[cfg(test)]
mod random;
