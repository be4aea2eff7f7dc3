ghost use Rattle.std.specs.Prelude.{◌≡◌, ℕ, ◌+◌, ◌*◌, ◌≤◌, length, None, vec_len, vec_capacity};
ghost use Rattle.mincut.specs.Solver.{cut_refusal};
ghost use Rattle.mincut.specs.View.{flow_of};
ghost use Rattle.residual.specs.declared.laying.Pair.{Pair};
ghost use Rattle.residual.specs.Laid.{both_ways, IsRule, Laid, max_arcs, one_way, table_of, with_pair, with_pairs};

use crate::arcs::Arc;
use mincut::flow::{FlowNetwork, FlowPipe};

// Two arcs between two vertices, one each way, and what each can take.
#[derive(Clone, Copy)]
struct Pair {
    from: usize,
    to: usize,
    forth: u64,
    back: u64,
}

impl Pair {
    // An arc with the capacity, whose reverse can take nothing.
    fn one_way(from: usize, to: usize, capacity: u64) -> Pair
        ensures { result ≡ one_way from to capacity }
    {
        Pair {
            from,
            to,
            forth: capacity,
            back: 0,
        }
    }

    // The arcs of a pipe, which both have its capacity.
    fn both_ways(pipe: FlowPipe) -> Pair
        ensures { result ≡ both_ways pipe }
    {
        Pair {
            from: pipe.first,
            to: pipe.second,
            forth: pipe.cost,
            back: pipe.cost,
        }
    }
}

// Appends the arcs of a pair.
// (What room is left stands in each contract here, since `lay` is a public function over a `Vec`.)
fn add_pair(arcs: &mut Vec<Arc>, pair: Pair)
    requires { vec_len arcs.old + 2 ≤ vec_capacity arcs.old }
    ensures items { arcs.new.items ≡ with_pair arcs.old.items pair.from pair.to pair.forth pair.back }
    ensures len { vec_len arcs.new ≡ vec_len arcs.old + 2 }
    ensures capacity { vec_capacity arcs.new ≡ vec_capacity arcs.old }
{
    arcs.push_reserved(Arc {
        from: pair.from,
        to: pair.to,
        remaining: pair.forth,
    });
    arcs.push_reserved(Arc {
        from: pair.to,
        to: pair.from,
        remaining: pair.back,
    });
}

// Appends the pair that the rule gives for each item and its number.
fn add_pairs<T: Copy, F: Fn(usize, T) -> Pair>(arcs: &mut Vec<Arc>, items: &[T], rule: F)
    requires room { vec_len arcs.old + 2 * length items.now ≤ vec_capacity arcs.old }
    requires callable { F.IsAlwaysCallable rule }
    ensures items { (pair_of : ℕ → T → Pair) (d : T) → IsRule (F.post rule) pair_of → arcs.new.items ≡ with_pairs pair_of d arcs.old.items items.now (length items.now) }
    ensures len { vec_len arcs.new ≡ vec_len arcs.old + 2 * length items.now }
    ensures capacity { vec_capacity arcs.new ≡ vec_capacity arcs.old }
{
    for (i, item) in items.iter().enumerate() {
        add_pair(arcs, rule(i, *item));
    }
}

// Fills the table with the arcs of a flow network that no solver refuses: from the source to each node, from each
// node to the sink, and both ways along each pipe.
pub fn lay(network: FlowNetwork<'_>, arcs: &mut Vec<Arc>)
    requires accepted { cut_refusal (flow_of network) network.nodes ≡ None }
    requires room { max_arcs ≤ vec_capacity arcs.old }
    ensures items { arcs.new.items ≡ table_of (flow_of network.entry) }
    ensures laid { Laid (flow_of network.entry) arcs.new.items }
    ensures capacity { vec_capacity arcs.new ≡ vec_capacity arcs.old }
{
    let source = network.nodes;
    let sink = source + 1;
    arcs.clear();
    add_pairs(
        arcs,
        network.sources,
        |node, capacity| Pair::one_way(source, node, capacity),
    );
    add_pairs(
        arcs,
        network.sinks,
        |node, capacity| Pair::one_way(node, sink, capacity),
    );
    add_pairs(arcs, network.pipes, |_, pipe| Pair::both_ways(pipe));
}
