//! What the loss of sites would cost: whole runs of `sites` over archives in memory, beside a plain elimination among sets of nodes,
//! and calls by themselves over the smallest lattices.

mod archives;
mod examples;
mod plain;
mod random;
mod small;
