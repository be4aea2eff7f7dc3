// The network file: a network read from bytes, and written as bytes.
#![tactic(auto)]

mod counts;
pub mod file;
mod header;
pub mod laws;
mod reading;
mod record;
mod writing;
