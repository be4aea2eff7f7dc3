// Flow networks, what a minimum cut of one is, and the interface of whatever finds the smallest one.
#![tactic(auto)]

pub mod accepted;
pub mod agreement;
pub mod flow;
pub mod laws;
pub mod solver;
