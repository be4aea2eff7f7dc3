ghost use Rattle.std.specs.Prelude.{◌≡◌, ℕ, ◌<◌, ◌≤◌, false, length, if◌then◌else◌, None, IfOk, slice_index, slice_index_or, vec_len};
ghost use Rattle.mincut.specs.Flow.{Flow};
ghost use Rattle.mincut.specs.Solver.{cut_refusal, Solved};
ghost use Rattle.mincut.specs.View.{flow_of};
ghost use Rattle.residual.specs.Arcs.{Table};
ghost use Rattle.residual.specs.Finished.{Finished};
ghost use Rattle.residual.specs.Laid.{max_vertices, source_of};
ghost use Rattle.residual.specs.Reach.{Reached};
ghost use Rattle.residual.specs.Star.{Indexed};

use super::Marker;
use crate::arcs::{Arc, MAX_VERTICES};
use crate::graph::ResidualGraph;
use crate::graph::lent::LentGraph;
use crate::queue::Queue;
use crate::star::ForwardStar;
use mincut::flow::FlowNetwork;
use std::alloc::{AllocError, Global};

impl Marker {
    // The memory for every flow network within the limits, or an error where there is none.
    pub fn new(heap: Global) -> Result<Marker, AllocError>
        ensures { IfOk result (λ marker. vec_len marker.seen ≡ max_vertices) }
    {
        Ok(Marker {
            seen: vec![in heap; false; MAX_VERTICES]?,
            slots: vec![in heap; 0; MAX_VERTICES]?,
        })
    }

    // Marks the smallest minimum cut, once no more can be sent: the nodes that the source still reaches.
    pub fn mark(&mut self, graph: &ResidualGraph, marks: &mut [u8])
        requires { length marks.old ≡ graph.now.nodes }
        ensures { (net : Flow) (sent : ℕ) → cut_refusal net (length marks.old) ≡ None → Finished net graph.now.arcs.items sent → Solved net marks.new sent }
    {
        reach(
            graph.lent(),
            self.seen.as_mut_slice(),
            self.slots.as_mut_slice(),
        );
        write_marks(self.seen.as_slice(), marks);
    }
}

// Marks the smallest minimum cut, once no more can be sent: the nodes that the source still reaches.
// (The same as `Marker::mark`, for a table, lists and memory of the caller's.)
pub fn mark_cut(
    network: FlowNetwork<'_>,
    arcs: &[Arc],
    star: ForwardStar<'_>,
    seen: &mut [bool],
    slots: &mut [usize],
    marks: &mut [u8],
)
    requires accepted { cut_refusal (flow_of network) (length marks.old) ≡ None }
    requires table { Table arcs.now (length star.heads.now) }
    requires indexed { Indexed arcs.now star.heads.now star.nexts.now }
    requires vertices { network.nodes < length star.heads.now }
    requires long { length star.heads.now ≤ length seen.old }
    requires slots { length star.heads.now ≤ length slots.old }
    ensures { (sent : ℕ) → Finished (flow_of network.entry) arcs.now sent → Solved (flow_of network.entry) marks.new sent }
{
    let nodes = network.nodes;
    reach(LentGraph { nodes, arcs, star }, seen, slots);
    write_marks(seen, marks);
}

// Writes 1 for each node that was reached, and 0 for every other.
// (`seen` by index: a zip with `iter_mut` was tried, and its proof did not close.)
fn write_marks(seen: &[bool], marks: &mut [u8])
    requires { length marks.old ≤ length seen.now }
    ensures { (v : ℕ) → v < length marks.new → slice_index marks.new v ≡ (if slice_index_or seen.now v false then 1 else 0) }
{
    for (node, mark) in marks.iter_mut().enumerate() {
        *mark = u8::from(seen[node]);
    }
}

// Finds the vertices that the source reaches over arcs with residual capacity.
// (No one search with the path solver's: that one stops at the sink and keeps each step, so that one for both would take
// closures and be no plainer. Of lent slices, since the length of a `Vec` is not known after a queue has borrowed its slots.)
fn reach(graph: LentGraph<'_>, seen: &mut [bool], slots: &mut [usize])
    requires long { length graph.star.heads.now ≤ length seen.old }
    requires slots { length graph.star.heads.now ≤ length slots.old }
    ensures { Reached graph.entry.arcs.now (source_of graph.entry.nodes) (λ v. slice_index_or seen.new v false) }
{
    seen.fill(false);
    let source = graph.source();
    seen[source] = true;
    let mut queue = Queue::new(slots);
    queue.push(source).unwrap();
    while let Some(vertex) = queue.pop() {
        for (_, arc) in graph.leaving(vertex) {
            if arc.is_open() && !seen[arc.to] {
                seen[arc.to] = true;
                queue.push(arc.to).unwrap();
            }
        }
    }
}
