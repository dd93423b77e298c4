//! Messages to a session: streams that are whole, bad or cut, that come a byte at a time, and reads that fail.

mod reading;
mod sizes;
mod sources;
