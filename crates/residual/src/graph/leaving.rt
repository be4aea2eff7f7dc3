ghost use Rattle.std.specs.Prelude.{◌≤◌, length};
ghost use Rattle.residual.specs.Star.{ahead};

use super::lent::LentGraph;

mod steps;

// The arcs that leave a vertex and are still to come, from arc `next` on.
// (An index, as the lists of the graph are: a solve may not allocate others.)
#[derive(Drop)]
pub struct Leaving<'a> {
    pub(super) graph: LentGraph<'a>,
    pub(super) next: Option<usize>,
    ghost within: { ahead next ≤ length graph.arcs.now },
}
