ghost use Rattle.std.specs.Prelude.{◌<◌, length};
ghost use Rattle.residual.specs.Arcs.{Table};
ghost use Rattle.residual.specs.Laid.{source_of};
ghost use Rattle.residual.specs.Star.{Indexed};

use crate::arcs::Arc;
use crate::star::ForwardStar;

mod reads;

// The nodes, the table of arcs and the lists of those that leave each vertex, lent: of a residual graph, or of any other
// table. The vertices are those that have a list, the source among them.
#[derive(Clone, Copy)]
pub(crate) struct LentGraph<'a> {
    pub(crate) nodes: usize,
    pub(crate) arcs: &'a [Arc],
    pub(crate) star: ForwardStar<'a>,
    ghost source: { source_of nodes < length star.heads.now },
    ghost table: { Table arcs.now (length star.heads.now) },
    ghost indexed: { Indexed arcs.now star.heads.now star.nexts.now },
}
