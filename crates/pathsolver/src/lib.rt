// A solver of minimum cuts that sends flow along shortest paths with residual capacity.
#![tactic(auto)]

mod paths;
pub mod solver;
pub mod step;
