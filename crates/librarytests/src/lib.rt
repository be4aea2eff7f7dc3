// Tests of the libraries, by the public calls alone. They stand in a crate of their own, since a crate that has tests is
// proved twice.
#![tactic(auto)]

#[cfg(test)]
mod minimum_cuts;
#[cfg(test)]
mod network_edits;
#[cfg(test)]
mod network_file;
