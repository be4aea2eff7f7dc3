ghost use Rattle.mincut.specs.Solver.{Answers};
ghost use Rattle.mincut.specs.View.{flow_of};

use crate::flow::FlowNetwork;
use faults::fault::Fault;

// Whatever finds the smallest minimum cut of a flow network.
// The trait has no ghost member: what a solver answers is fixed, and follows from the arguments alone.
pub trait MinCut {
    // Marks the smallest minimum cut, 1 for each of its nodes and 0 for every other, and answers its capacity;
    // or refuses, and leaves the marks as they were.
    fn cut(&mut self, network: FlowNetwork<'_>, marks: &mut [u8]) -> Result<u64, Fault>
        ensures { Answers (flow_of network.entry) marks.old result marks.new };
}
