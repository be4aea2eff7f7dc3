// A pipe between two different nodes, and what it costs to cut it: in a water network that is the cost of a meter
// chamber on the pipe.
#[derive(Clone, Copy, PartialEq, Eq, Debug)]
pub struct Pipe<C> {
    pub first: usize,
    pub second: usize,
    pub cost: C,
}
