//! Tests of words, of drills and their plans, of rehearsals, and of the loss of sites: the worked examples, damage lists of the
//! greatest length, random damage and random archives against the plain programs, and calls by themselves over the smallest lattices.
#![tactic(auto)]

#[cfg(test)]
mod examples;
#[cfg(test)]
mod random;
#[cfg(test)]
mod rehearsals;
#[cfg(test)]
mod reports;
#[cfg(test)]
mod shared;
#[cfg(test)]
mod sites;
#[cfg(test)]
mod sizes;
