// The residual graph. This file has only the type, since a type with a ghost field imports every ghost use of its file.
ghost use Rattle.std.specs.Prelude.{◌≤◌, vec_capacity};
ghost use Rattle.network.specs.Limits.{max_nodes};
ghost use Rattle.residual.specs.Arcs.{Table};
ghost use Rattle.residual.specs.Laid.{max_arcs, vertices};
ghost use Rattle.residual.specs.Star.{Indexed};

use crate::arcs::Arc;
use crate::star::StarMemory;

pub mod leaving;
pub(crate) mod lent;
mod makes;
mod moves;

// What can still be sent between the vertices of a flow network, which are its nodes, the source and the sink:
// the table of arcs, and for each vertex the list of those that leave it. The memory is reserved once for the largest
// flow network, so that no call but `new` allocates.
#[derive(Drop)]
pub struct ResidualGraph {
    nodes: usize,
    arcs: Vec<Arc>,
    star: StarMemory,
    ghost few: { nodes ≤ max_nodes },
    ghost reserved: { max_arcs ≤ vec_capacity arcs },
    ghost table: { Table arcs.items (vertices nodes) },
    ghost indexed: { Indexed arcs.items star.heads.items star.nexts.items },
}
