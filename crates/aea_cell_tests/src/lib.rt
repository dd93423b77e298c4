//! Tests of names and cells: catalogues, the layout of cells and their digests, their homes, and cells on disks.
#![tactic(auto)]

#[cfg(test)]
mod cells;
#[cfg(test)]
mod client;
#[cfg(test)]
mod homes;
#[cfg(test)]
mod naming;
#[cfg(test)]
mod shelving;
