//! Tests of lattices: their blocks and strands, views and marks, walks along codewords, steps that follow, and parities;
//! and the plain programs of the definitions.
#![tactic(auto)]

#[cfg(test)]
mod adding;
#[cfg(test)]
mod ends;
#[cfg(test)]
mod examples;
#[cfg(test)]
mod grid;
#[cfg(test)]
mod lists;
#[cfg(test)]
mod marking;
#[cfg(test)]
mod names;
#[cfg(test)]
mod peeling;
#[cfg(test)]
mod plain;
#[cfg(test)]
mod texts;
#[cfg(test)]
mod viewing;
#[cfg(test)]
mod walking;
#[cfg(test)]
mod weaving;
