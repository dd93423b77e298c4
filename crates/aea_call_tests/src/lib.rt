//! Tests of single calls: messages that are read of a stream; and over archives in memory objects that are put, one by one and from a
//! stream of frames, scans, reports that are judged, blocks that are explained, and rehearsals; and the witness.
#![tactic(auto)]

#[cfg(test)]
mod archives;
#[cfg(test)]
mod explaining;
#[cfg(test)]
mod ingesting;
#[cfg(test)]
mod judging;
#[cfg(test)]
mod messages;
#[cfg(test)]
mod putting;
#[cfg(test)]
mod rehearsing;
#[cfg(test)]
mod scanning;
#[cfg(test)]
mod stopping;
#[cfg(test)]
mod witnessing;
