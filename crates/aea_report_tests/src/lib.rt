//! Tests of reports: their texts, plans whose reports are printed, and reports that are read.
#![tactic(auto)]

#[cfg(test)]
mod changed;
#[cfg(test)]
mod long_lines;
#[cfg(test)]
mod plain;
#[cfg(test)]
mod planning;
#[cfg(test)]
mod printing;
#[cfg(test)]
mod reading;
#[cfg(test)]
mod sources;
#[cfg(test)]
mod writing;
