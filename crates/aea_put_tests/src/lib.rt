//! Tests of objects that are put, of streams of them that are ingested, and of scrubs of their archives.
#![tactic(auto)]

#[cfg(test)]
mod archives;
#[cfg(test)]
mod frames;
#[cfg(test)]
mod parting;
#[cfg(test)]
mod putting;
#[cfg(test)]
mod refusing;
#[cfg(test)]
mod scrubbing;
#[cfg(test)]
mod streams;
