//! Tests of elimination: packed rows, the fates of worked examples, random damage against a plain elimination,
//! parts alone, and the smallest patterns of two nodes; and of what is lost, in one pass, by worked examples and random damage.
#![tactic(auto)]

#[cfg(test)]
mod bench;
#[cfg(test)]
mod examples;
#[cfg(test)]
mod losing;
#[cfg(test)]
mod parts;
#[cfg(test)]
mod patterns;
#[cfg(test)]
mod plain;
#[cfg(test)]
mod random;
#[cfg(test)]
mod sets;
#[cfg(test)]
mod words;
