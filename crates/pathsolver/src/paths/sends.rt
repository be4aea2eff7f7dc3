ghost use Rattle.std.specs.Prelude.{◌≡◌, ◌≤◌, length, IfOk, Some, None, MatchOption, vec_len};
ghost use Rattle.residual.specs.Arcs.{Alike, Moved};
ghost use Rattle.residual.specs.Identity.{gained, Identity, nothing};
ghost use Rattle.residual.specs.Laid.{max_vertices, sink_of, source_of, vertices};
ghost use Rattle.residual.specs.Reach.{Blocked};
ghost use Rattle.pathsolver.specs.Sending.{Augmented};
ghost use Rattle.pathsolver.specs.Steps.{Found, Trail, visit_at};

use super::PathSearch;
use crate::step::Step;
use residual::arcs::MAX_VERTICES;
use residual::graph::ResidualGraph;
use residual::queue::Queue;
use std::alloc::{AllocError, Global};

impl PathSearch {
    // The memory for every flow network within the limits, or an error where there is none.
    pub(crate) fn new(heap: Global) -> Result<PathSearch, AllocError>
        ensures { IfOk result (λ search. vec_len search.visits ≡ max_vertices) }
    {
        Ok(PathSearch {
            visits: vec![in heap; None; MAX_VERTICES]?,
            steps: vec![in heap; Step::start(0); MAX_VERTICES]?,
        })
    }

    // Sends along shortest paths until there is none left, and answers how much was sent.
    // (That the nodes stay compares two states of a graph, so no invariant can say it for the three calls here.)
    pub(crate) fn send(&mut self, graph: &mut ResidualGraph) -> u64
        ensures nodes { graph.new.nodes ≡ graph.old.nodes }
        ensures alike { Alike graph.old.arcs.items graph.new.arcs.items }
        ensures identity { let n = graph.old.nodes in Identity (vertices n) (source_of n) graph.old.arcs.items graph.new.arcs.items result (gained nothing (sink_of n) result) }
        ensures blocked { Blocked graph.new.arcs.items (source_of graph.old.nodes) (sink_of graph.old.nodes) }
    {
        // A loop: `from_fn` and `sum` were tried, and the proof that they end did not close.
        let mut sent = 0;
        while let Some(room) = self.advance(graph) {
            sent += room;
        }
        sent
    }

    // Sends as much as it takes along a shortest path, and answers how much; or nothing, where there is no path.
    fn advance(&mut self, graph: &mut ResidualGraph) -> Option<u64>
        ensures nodes { graph.new.nodes ≡ graph.old.nodes }
        ensures goal { let n = graph.old.nodes in MatchOption result ((graph.new.arcs.items ≡ graph.old.arcs.items) × Blocked graph.new.arcs.items (source_of n) (sink_of n)) (λ room. Augmented (vertices n) (source_of n) (sink_of n) graph.old.arcs.items graph.new.arcs.items room) }
    {
        let vertices = graph.vertices();
        let found = search(
            graph,
            &mut self.visits.as_mut_slice()[0..vertices],
            self.steps.as_mut_slice(),
        )?;
        augment(graph, &self.visits.as_slice()[0..vertices], found);
        Some(found.room)
    }
}

// Looks for a shortest path with residual capacity, and answers its last step the moment the sink is reached.
// (Of lent slices, since the length of a `Vec` is not known after a queue has borrowed its slots.)
fn search(graph: &ResidualGraph, visits: &mut [Option<Step>], steps: &mut [Step]) -> Option<Step>
    requires long { vertices graph.now.nodes ≤ length visits.old }
    requires slots { vertices graph.now.nodes ≤ length steps.old }
    ensures trail { Trail graph.now.arcs.items visits.new (source_of graph.now.nodes) }
    ensures goal { let n = graph.now.nodes in MatchOption result (Blocked graph.now.arcs.items (source_of n) (sink_of n)) (λ s. Found visits.new (sink_of n) s) }
{
    visits.fill(None);
    let source = graph.source();
    let sink = graph.sink();
    let start = Step::start(source);
    visits[source] = Some(start);
    let mut queue = Queue::new(steps);
    queue.push(start).unwrap();
    'search: {
        while let Some(step) = queue.pop() {
            for (k, arc) in graph.leaving(step.vertex) {
                if arc.is_open() && visits[arc.to].is_none() {
                    let found = step.onward(k, arc);
                    visits[arc.to] = Some(found);
                    if arc.to == sink {
                        break 'search Some(found);
                    }
                    queue.push(found).unwrap();
                }
            }
        }
        None
    }
}

// Sends along the path that was found as much as it takes, from its last arc back to the source.
fn augment(graph: &mut ResidualGraph, visits: &[Option<Step>], found: Step)
    requires trail { Trail graph.old.arcs.items visits.now (source_of graph.old.nodes) }
    requires found { visit_at visits.now found.vertex ≡ Some found }
    ensures nodes { graph.new.nodes ≡ graph.old.nodes }
    ensures alike { Alike graph.old.arcs.items graph.new.arcs.items }
    ensures moved { Moved graph.old.arcs.items graph.new.arcs.items (source_of graph.old.nodes) found.vertex found.room }
{
    let mut step = found;
    while let Some(k) = step.via {
        let from = graph.arc(k).from;
        graph.push(k, found.room);
        step = visits[from].unwrap();
    }
}
