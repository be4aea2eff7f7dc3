ghost use Rattle.std.specs.Prelude.{◌≡◌, [], IfOk};
ghost use Rattle.mincut.specs.View.{flow_of};
ghost use Rattle.residual.specs.Laid.{Laid, table_of};

use super::ResidualGraph;
use crate::arcs::MAX_ARCS;
use crate::laying::lay;
use crate::star::StarMemory;
use mincut::accepted::AcceptedNetwork;
use std::alloc::{AllocError, Global};

impl ResidualGraph {
    // A graph with no arcs, and with the memory for every flow network within the limits; or an error where there is none.
    pub fn new(heap: Global) -> Result<ResidualGraph, AllocError>
        ensures { IfOk result (λ graph. graph.arcs.items ≡ []) }
    {
        Ok(ResidualGraph {
            nodes: 0,
            arcs: Vec::with_capacity(heap, MAX_ARCS)?,
            star: StarMemory::new(heap)?,
        })
    }

    // Lays the arcs of a flow network that no solver refuses, and lists those of each vertex.
    pub fn lay(&mut self, accepted: AcceptedNetwork<'_>)
        ensures nodes { self.new.nodes ≡ accepted.entry.network.nodes }
        ensures items { self.new.arcs.items ≡ table_of (flow_of accepted.entry.network) }
        ensures laid { Laid (flow_of accepted.entry.network) self.new.arcs.items }
    {
        lay(accepted.network(), &mut self.arcs);
        self.star.index(self.arcs.as_slice());
        self.nodes = accepted.network().nodes;
    }
}
