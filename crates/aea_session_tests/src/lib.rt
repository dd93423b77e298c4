//! Tests of sessions over archives in memory, by public calls alone, and of whole runs of the command.
#![tactic(auto)]

#[cfg(test)]
mod archives;
#[cfg(test)]
mod examples;
#[cfg(test)]
mod plain;
#[cfg(test)]
mod random;
#[cfg(test)]
mod run_stops;
#[cfg(test)]
mod runs;
#[cfg(test)]
mod sessions;
#[cfg(test)]
mod stops;
#[cfg(test)]
mod streams;
