ghost use Rattle.std.specs.Prelude.{◌≡◌, ◌<◌, length};
ghost use Rattle.residual.specs.Laid.{source_of};
ghost use Rattle.residual.specs.Star.{latest};

use super::LentGraph;
use crate::graph::leaving::Leaving;

impl<'a> LentGraph<'a> {
    // The vertex where all flow starts.
    pub(crate) fn source(self) -> usize
        ensures { result ≡ source_of self.entry.nodes }
    {
        self.nodes
    }

    // The arcs that leave a vertex, the latest first, each with its number.
    #[tactic(auto, using(crate::proofs::Indexing::first_under))]
    pub(crate) fn leaving(self, vertex: usize) -> Leaving<'a>
        requires { vertex < length self.star.heads.now }
        ensures graph { result.graph ≡ self.entry }
        ensures first { result.next ≡ latest self.entry.arcs.now vertex (length self.entry.arcs.now) }
    {
        Leaving {
            graph: self,
            next: self.star.heads[vertex],
        }
    }
}
