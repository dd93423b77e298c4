//! Tests of whole ledgers: opening them byte by byte beside a plain reader, and stops while they are made and added to.
#![tactic(auto)]

#[cfg(test)]
mod adding;
#[cfg(test)]
mod creating;
#[cfg(test)]
mod example;
#[cfg(test)]
mod kinds;
#[cfg(test)]
mod openings;
#[cfg(test)]
mod plain;
#[cfg(test)]
mod small;
#[cfg(test)]
mod stops;
