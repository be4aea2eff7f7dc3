ghost use Rattle.std.specs.Prelude.{◌≡◌, ◌<◌, ◌≤◌, length, vec_len};
ghost use Rattle.residual.specs.Arcs.{arc_at, pushed};
ghost use Rattle.residual.specs.Laid.{sink_of, source_of, vertices};
ghost use Rattle.residual.specs.Star.{latest};

use super::ResidualGraph;
use super::leaving::Leaving;
use super::lent::LentGraph;
use crate::arcs::{Arc, push};

impl ResidualGraph {
    // How many vertices there are.
    pub fn vertices(&self) -> usize
        ensures { result ≡ vertices self.now.nodes }
    {
        self.sink() + 1
    }

    // The vertex where all flow starts.
    pub fn source(&self) -> usize
        ensures { result ≡ source_of self.now.nodes }
    {
        self.nodes
    }

    // The vertex where all flow ends.
    pub fn sink(&self) -> usize
        ensures { result ≡ sink_of self.now.nodes }
    {
        self.source() + 1
    }

    // Arc `k` of the table.
    pub fn arc(&self, k: usize) -> Arc
        requires { k < vec_len self.now.arcs }
        ensures { result ≡ arc_at self.now.arcs.items k }
    {
        self.arcs[k]
    }

    // The nodes, the arcs and their lists, lent.
    #[tactic(auto, using(crate::proofs::Building::table_wider))]
    pub(crate) fn lent(&self) -> LentGraph<'_>
        ensures nodes { result.nodes ≡ self.now.nodes }
        ensures arcs { result.arcs.now ≡ self.now.arcs.items }
        ensures heads { result.star.heads.now ≡ self.now.star.heads.items }
        ensures nexts { result.star.nexts.now ≡ self.now.star.nexts.items }
    {
        LentGraph {
            nodes: self.source(),
            arcs: self.arcs.as_slice(),
            star: self.star.lent(),
        }
    }

    // The arcs that leave a vertex, the latest first, each with its number.
    pub fn leaving(&self, vertex: usize) -> Leaving<'_>
        requires { vertex < vertices self.now.nodes }
        ensures nodes { result.graph.nodes ≡ self.now.nodes }
        ensures arcs { result.graph.arcs.now ≡ self.now.arcs.items }
        ensures heads { result.graph.star.heads.now ≡ self.now.star.heads.items }
        ensures nexts { result.graph.star.nexts.now ≡ self.now.star.nexts.items }
        ensures first { result.next ≡ latest self.now.arcs.items vertex (length self.now.arcs.items) }
    {
        self.lent().leaving(vertex)
    }

    // Sends an amount along arc `k`: it can take so much less, and its reverse so much more.
    pub fn push(&mut self, k: usize, amount: u64)
        requires within { k < vec_len self.old.arcs }
        requires room { amount ≤ (arc_at self.old.arcs.items k).remaining }
        ensures arcs { self.new.arcs.items ≡ pushed self.old.arcs.items k amount }
        ensures nodes { self.new.nodes ≡ self.old.nodes }
    {
        push(self.arcs.as_mut_slice(), k, amount);
    }
}
