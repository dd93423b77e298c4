//! Tests of whole checks: reports that `verify` judges, against worked examples and against a plain judge of the tests, and
//! what `explain` says of single blocks, against drills and plain sums.
#![tactic(auto)]

#[cfg(test)]
mod archives;
#[cfg(test)]
mod changed;
#[cfg(test)]
mod changes;
#[cfg(test)]
mod examples;
#[cfg(test)]
mod explained;
#[cfg(test)]
mod lines;
#[cfg(test)]
mod plain;
#[cfg(test)]
mod refusals;
#[cfg(test)]
mod shapes;
