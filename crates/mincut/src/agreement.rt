ghost use Rattle.std.specs.Prelude.{◌≡◌};
ghost use Rattle.mincut.specs.Solver.{Answers};
ghost use Rattle.mincut.specs.View.{flow_of};

use crate::flow::FlowNetwork;
use crate::laws::one_answer;
use crate::solver::MinCut;
use faults::fault::Fault;

// Solves by two solvers, each with its own marks buffer.
// Where the buffers hold the same, the two answer the same and leave the same marks.
// The call of the law has nothing to do; what it ensures is the reason.
pub fn solve_by_both<S: MinCut, T: MinCut>(
    first: &mut S,
    second: &mut T,
    network: FlowNetwork<'_>,
    marks: &mut [u8],
    others: &mut [u8],
) -> (Result<u64, Fault>, Result<u64, Fault>)
    ensures first { Answers (flow_of network.entry) marks.old result.0 marks.new }
    ensures second { Answers (flow_of network.entry) others.old result.1 others.new }
    ensures answer { marks.old ≡ others.old → result.0 ≡ result.1 }
    ensures marks { marks.old ≡ others.old → marks.new ≡ others.new }
{
    one_answer();
    (first.cut(network, marks), second.cut(network, others))
}
