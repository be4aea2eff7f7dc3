// The counts of a file, and the places that follow from them.
ghost use Rattle.std.specs.Prelude.{◌≡◌, ◌≤◌, length};
ghost use Rattle.network.specs.Limits.{max_nodes, max_pipes};
ghost use Rattle.network.specs.Net.{count};
ghost use Rattle.network.specs.View.{view};
ghost use Rattle.netfile.specs.Format.{file_size, pipes_place};

use crate::header::HEADER_SIZE;
use crate::record::{NODE_SIZE, PIPE_SIZE, record_place};
use network::network::Network;

// How many nodes and how many pipes a file has, no more than a network may have.
#[derive(Clone, Copy)]
pub(crate) struct Counts {
    pub(crate) nodes: usize,
    pub(crate) pipes: usize,
    ghost few_nodes: { nodes ≤ max_nodes },
    ghost few_pipes: { pipes ≤ max_pipes },
}

impl Counts {
    // How many nodes and pipes the network has.
    pub(crate) fn of(network: &Network) -> Counts
        ensures nodes { result.nodes ≡ count (view network.now) }
        ensures pipes { result.pipes ≡ length (view network.now).pipes }
    {
        Counts {
            nodes: network.weights().len(),
            pipes: network.pipes().len(),
        }
    }

    // Where the records of the pipes begin, behind those of the nodes.
    pub(crate) fn pipes_place(self) -> usize
        ensures { result ≡ pipes_place self.nodes }
    {
        record_place::<NODE_SIZE>(HEADER_SIZE, self.nodes)
    }

    // How long the file is: it ends where one more pipe would begin.
    pub(crate) fn file_size(self) -> usize
        ensures { result ≡ file_size self.nodes self.pipes }
    {
        record_place::<PIPE_SIZE>(self.pipes_place(), self.pipes)
    }
}
