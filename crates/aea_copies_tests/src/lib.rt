//! Tests of copies of the ledger at the calls: adopting them beside a plain judge, beginning them, and a disk that keeps them up,
//! with stops and with calls that fail.
#![tactic(auto)]

#[cfg(test)]
mod adding;
#[cfg(test)]
mod adopting;
#[cfg(test)]
mod example;
#[cfg(test)]
mod joining;
#[cfg(test)]
mod keeping;
#[cfg(test)]
mod mending;
#[cfg(test)]
mod plain;
#[cfg(test)]
mod starting;
#[cfg(test)]
mod stops;
#[cfg(test)]
mod surviving;
#[cfg(test)]
mod three;
#[cfg(test)]
mod watched;
