//! Tests of whole runs over archives whose ledger has copies: what they print and leave where files are damaged, where the disk is
//! stopped, and where its calls fail.
#![tactic(auto)]

#[cfg(test)]
mod archives;
#[cfg(test)]
mod beginning;
#[cfg(test)]
mod commits;
#[cfg(test)]
mod faults;
#[cfg(test)]
mod harms;
#[cfg(test)]
mod mending;
#[cfg(test)]
mod older;
#[cfg(test)]
mod refusing;
#[cfg(test)]
mod sessions;
#[cfg(test)]
mod stops;
