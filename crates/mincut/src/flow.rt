ghost use Rattle.std.specs.Prelude.{◌≡◌, ◌-◌, ◌^◌, min, sum_by, ℕ};
ghost use Rattle.std.specs.Fn.{FnReturnsAt};
ghost use Rattle.network.specs.Refusals.{answer};
ghost use Rattle.mincut.specs.Flow.{Measures, some_bad_pipe, total_capacity};
ghost use Rattle.mincut.specs.Solver.{cut_refusal, misshapen};
ghost use Rattle.mincut.specs.View.{flow_of};

use faults::fault::Fault;
use faults::layer::Layer;
use faults::refusal::Refusal;
use network::limits::{MAX_NODES, MAX_PIPES, has_bad_ends};
use network::pipe::Pipe;

// The most that all capacities of a flow network may sum to, 2^62.
pub const MAX_CAPACITY: u64 = 1 << 62;

// A pipe of a flow network. What it costs to cut it is its capacity, which it carries both ways.
pub type FlowPipe = Pipe<u64>;

// So many nodes, for each node the capacity from the source to it and the capacity from it to the sink, and pipes.
// The lists are lent, so a flow network is as cheap to hand on as a reference.
// (A count and two lists beside one another, since a list of the wrong length is to be refused.)
#[derive(Clone, Copy)]
pub struct FlowNetwork<'a> {
    pub nodes: usize,
    pub sources: &'a [u64],
    pub sinks: &'a [u64],
    pub pipes: &'a [FlowPipe],
}

impl FlowNetwork<'_> {
    // Refuses what no solver takes, with a marks buffer of this length.
    pub fn check(self, marks: usize) -> Result<(), Fault>
        ensures { result ≡ answer (cut_refusal (flow_of self.entry) marks) tt }
    {
        if self.is_misshapen(marks) {
            return Err(Fault::of(Layer::Solver, Refusal::BadFlowNetwork));
        }
        if self.total_capacity() > MAX_CAPACITY {
            return Err(Fault::of(Layer::Solver, Refusal::CapacityTooLarge));
        }
        Ok(())
    }

    // Whether a count is over its limit, a length is wrong, or a pipe's end is missing or doubled.
    fn is_misshapen(self, marks: usize) -> bool
        ensures { result ≡ misshapen (flow_of self.entry) marks }
    {
        self.nodes > MAX_NODES
            || self.pipes.len() > MAX_PIPES
            || self.sources.len() != self.nodes
            || self.sinks.len() != self.nodes
            || marks != self.nodes
            || has_bad_pipe(self.pipes, self.nodes)
    }

    // What all capacities sum to, or the largest number where that is larger still.
    fn total_capacity(self) -> u64
        ensures { result ≡ min (total_capacity (flow_of self.entry)) (2 ^ 64 - 1) }
    {
        saturating_sum(self.sources, |capacity| *capacity)
            .saturating_add(saturating_sum(self.sinks, |capacity| *capacity))
            .saturating_add(saturating_sum(self.pipes, |pipe| pipe.cost))
    }
}

// Whether the ends of some pipe are not two different nodes of so many.
fn has_bad_pipe(pipes: &[FlowPipe], nodes: usize) -> bool
    ensures { result ≡ some_bad_pipe nodes pipes.now }
{
    pipes
        .iter()
        .any(|pipe| has_bad_ends(nodes, pipe.first, pipe.second))
}

// The sum of what `capacity` gives of each item, or the largest number where that is larger still.
fn saturating_sum<T, F: Fn(&T) -> u64>(items: &[T], capacity: F) -> u64
    requires { F.IsAlwaysCallable capacity }
    ensures { (amount : T → ℕ) → Measures (FnReturnsAt F.Fn capacity) items.now amount → result ≡ min (sum_by amount items.now) (2 ^ 64 - 1) }
{
    items
        .iter()
        .map(capacity)
        .fold(0, |sum: u64, amount| sum.saturating_add(amount))
}
