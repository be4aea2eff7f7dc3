// The residual network that solvers of minimum cuts work on: its table of arcs, the arcs of each vertex, the push of
// flow along an arc, a queue, and the search that marks the cut at the end.
#![tactic(auto)]

pub mod arcs;
pub mod graph;
pub mod laws;
pub mod laying;
pub mod marking;
pub mod queue;
pub mod star;
