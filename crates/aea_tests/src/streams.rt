//! The one place of streams that end early, come a byte at a time or fail, for each command.

mod ends;
mod inputs;
mod outputs;
