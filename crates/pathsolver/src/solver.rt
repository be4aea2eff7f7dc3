ghost use Rattle.std.specs.Prelude.{◌≡◌, ◌≤◌, length, IfOk, vec_capacity};
ghost use Rattle.mincut.specs.Solver.{Solved};
ghost use Rattle.mincut.specs.View.{flow_of};
ghost use Rattle.residual.specs.Laid.{max_arcs};

use crate::paths::PathSearch;
use faults::fault::Fault;
use mincut::accepted::AcceptedNetwork;
use mincut::flow::FlowNetwork;
use mincut::solver::MinCut;
use residual::graph::ResidualGraph;
use residual::marking::Marker;
use std::alloc::{AllocError, Global};

// The path solver: the residual graph, and the memory of the two searches in it.
#[derive(Drop)]
pub struct PathSolver {
    graph: ResidualGraph,
    search: PathSearch,
    marker: Marker,
}

impl PathSolver {
    // A solver with the memory for every flow network within the limits, or an error where there is none.
    pub fn new(heap: Global) -> Result<PathSolver, AllocError>
        ensures { IfOk result (λ solver. max_arcs ≤ vec_capacity solver.graph.arcs) }
    {
        Ok(PathSolver {
            graph: ResidualGraph::new(heap)?,
            search: PathSearch::new(heap)?,
            marker: Marker::new(heap)?,
        })
    }

    // Solves a flow network that no solver refuses.
    fn solve(&mut self, accepted: AcceptedNetwork<'_>, marks: &mut [u8]) -> u64
        requires { accepted.network.nodes ≡ length marks.old }
        ensures { Solved (flow_of accepted.entry.network) marks.new result }
    {
        self.graph.lay(accepted);
        let sent = self.search.send(&mut self.graph);
        self.marker.mark(&self.graph, marks);
        sent
    }
}

impl MinCut for PathSolver {
    fn cut(&mut self, network: FlowNetwork<'_>, marks: &mut [u8]) -> Result<u64, Fault> {
        let accepted = AcceptedNetwork::new(network, marks.len())?;
        Ok(self.solve(accepted, marks))
    }
}
