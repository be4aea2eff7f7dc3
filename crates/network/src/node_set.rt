// A set of the nodes of a network, by marks that were tested, and what the set comes to.
ghost use Rattle.std.specs.Prelude.{◌≡◌, None};
ghost use Rattle.network.specs.Answers.{misfit};
ghost use Rattle.network.specs.View.{view};

use crate::network::Network;
use crate::pipe::Pipe;
use faults::fault::Fault;

// The nodes whose mark is 1. A number past the last node is in no set.
#[derive(Clone, Copy)]
pub(crate) struct NodeSet<'a> {
    network: &'a Network,
    marks: &'a [u8],
    ghost fits: { misfit (view network.now) marks.now ≡ None },
}

impl<'a> NodeSet<'a> {
    ghost use Rattle.std.specs.Prelude.{◌≡◌, ◌*◌, ◌<◌, ◌≤◌, Some, IfErr, IfOk};
    ghost use Rattle.network.specs.Answers.{misfit};
    ghost use Rattle.network.specs.Limits.{PipeFits, max_nodes, max_weight};
    ghost use Rattle.network.specs.Net.{adds, boundary, complement, count, lighter, weight};
    ghost use Rattle.network.specs.Scores.{denominator, inside, outside};
    ghost use Rattle.network.specs.Sets.{network_of, nodes_of};
    ghost use Rattle.network.specs.View.{view};

    // The set that the marks stand for. Marks that do not fit the network are refused.
    pub(crate) fn new(network: &'a Network, marks: &'a [u8]) -> Result<NodeSet<'a>, Fault>
        ensures network { IfOk result (λ set. set.network.now ≡ network.now) }
        ensures marks { IfOk result (λ set. set.marks.now ≡ marks.now) }
        ensures refused { IfErr result (λ fault. misfit (view network.now) marks.now ≡ Some fault) }
    {
        network.check_marks(marks)?;
        Ok(NodeSet { network, marks })
    }

    // Whether the node is in the set.
    fn has(&self, node: usize) -> bool
        requires { node < count (network_of self.now) }
        ensures { result ≡ nodes_of self.now node }
    {
        self.marks[node] == 1
    }

    // The weight of the set, and of the nodes outside it.
    fn sides(&self) -> (u32, u32)
        ensures set { result.0 ≡ weight (network_of self.now) (nodes_of self.now) }
        ensures rest { result.1 ≡ weight (network_of self.now) (complement (nodes_of self.now)) }
        ensures bounds { (result.0 ≤ max_nodes * max_weight) × (result.1 ≤ max_nodes * max_weight) }
    {
        self.network
            .weights_where(|node| self.has(node), |node| !self.has(node))
    }

    // The weight of the set.
    pub(crate) fn weight(&self) -> u32
        ensures { result ≡ weight (network_of self.now) (nodes_of self.now) }
    {
        let (weight, _) = self.sides();
        weight
    }

    // The weight of the lighter of the two sides.
    #[tactic(auto, unfolding(crate::specs::Net::lighter))]
    pub(crate) fn lighter_side(&self) -> u32
        ensures { result ≡ lighter (network_of self.now) (nodes_of self.now) }
    {
        let (weight, rest) = self.sides();
        weight.min(rest)
    }

    // What the pipe adds to the boundary cost of the set.
    fn added_cost(&self, pipe: Pipe<u32>) -> u32
        requires { PipeFits (count (network_of self.now)) pipe }
        ensures { result ≡ adds (nodes_of self.now) pipe }
    {
        if self.has(pipe.first) != self.has(pipe.second) {
            pipe.cost
        } else {
            0
        }
    }

    // The summed cost of the pipes with exactly one end in the set.
    #[tactic(auto, unfolding(crate::specs::Net::cost_across))]
    pub(crate) fn boundary(&self) -> u32
        ensures { result ≡ boundary (network_of self.now) (nodes_of self.now) }
    {
        self.network
            .pipes()
            .iter()
            .map(|pipe| self.added_cost(*pipe))
            .sum()
    }

    // The weight of what the set has inside the proposal, and of what it has outside.
    // (`&`, which reads both marks of each node: with `&&` the pass would branch on them.)
    fn parts(&self, proposal: &NodeSet) -> (u32, u32)
        requires { network_of proposal.now ≡ network_of self.now }
        ensures inside { result.0 ≡ inside (network_of self.now) (nodes_of proposal.now) (nodes_of self.now) }
        ensures outside { result.1 ≡ outside (network_of self.now) (nodes_of proposal.now) (nodes_of self.now) }
        ensures bounds { (result.0 ≤ max_nodes * max_weight) × (result.1 ≤ max_nodes * max_weight) }
    {
        self.network.weights_where(
            |node| self.has(node) & proposal.has(node),
            |node| self.has(node) & !proposal.has(node),
        )
    }

    // The denominator of the set relative to the proposal.
    #[tactic(auto, using(crate::proofs::Products::product_fits))]
    pub(crate) fn denominator(&self, proposal: &NodeSet) -> i64
        requires { network_of proposal.now ≡ network_of self.now }
        ensures { result ≡ denominator (network_of self.now) (nodes_of proposal.now) (nodes_of self.now) }
    {
        let (proposed, remainder) = proposal.sides();
        let (inside, outside) = self.parts(proposal);
        i64::from(remainder) * i64::from(inside) - i64::from(proposed) * i64::from(outside)
    }
}
