// A water network within its limits, its edits, and the scores of a set of its nodes.
#![tactic(auto)]

pub mod laws;
pub mod limits;
mod marks;
pub mod network;
mod node_set;
pub mod pipe;
