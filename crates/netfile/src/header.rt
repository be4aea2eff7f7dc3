// The leading bytes of a file, and its records behind them.
ghost use Rattle.std.specs.Prelude.{◌≡◌, ◌≤◌, map, length, IfOk};
ghost use Rattle.std.specs.Result.{result_err};
ghost use Rattle.faults.specs.Faults.{file_fault};
ghost use Rattle.network.specs.Limits.{max_nodes, max_pipes};
ghost use Rattle.netfile.specs.Format.{file_of, net_of, pipe_from, weight_from};
ghost use Rattle.netfile.specs.Meaning.{header_fault, mark_place, node_records, pipe_records};

use crate::counts::Counts;
use crate::record::{NODE_SIZE, PIPE_SIZE};
use faults::fault::Fault;
use faults::layer::Layer;
use faults::refusal::Refusal;
use network::limits::{MAX_NODES, MAX_PIPES};

pub(crate) const VERSION: u16 = 1;

// Where the version and the two counts stand.
const VERSION_PLACE: usize = 3;

const NODE_COUNT_PLACE: usize = 5;

const PIPE_COUNT_PLACE: usize = 6;

// How many bytes come before the records.
pub(crate) const HEADER_SIZE: usize = 8;

// The records of a file, those of the nodes and those of the pipes. There are no more than a network may have.
#[derive(Clone, Copy)]
pub(crate) struct Records<'a> {
    pub(crate) nodes: &'a [[u8; NODE_SIZE]],
    pub(crate) pipes: &'a [[u8; PIPE_SIZE]],
    ghost few_nodes: { length nodes.now ≤ max_nodes },
    ghost few_pipes: { length pipes.now ≤ max_pipes },
}

// The fault of a file at this place.
pub(crate) fn file_fault(refusal: Refusal, place: usize) -> Fault
    ensures { result ≡ file_fault refusal place }
{
    Fault::of(Layer::File, refusal).at(place)
}

// The first of bytes 0 to 2 that is not the mark's, or else the file's length.
fn mark_place(file: &[u8]) -> usize
    ensures { result ≡ mark_place file.now }
{
    file.iter()
        .zip(b"DZN")
        .position(|(byte, mark)| byte != mark)
        .unwrap_or(file.len())
}

impl<'a> Records<'a> {
    // Tests the leading bytes and the length, and cuts the rest into records. What they say has this file.
    pub(crate) fn open(file: &'a [u8]) -> Result<Records<'a>, Fault>
        ensures fault { result_err result ≡ header_fault file.now }
        ensures nodes { IfOk result (λ records. records.nodes.now ≡ node_records file.now) }
        ensures pipes { IfOk result (λ records. records.pipes.now ≡ pipe_records file.now) }
        ensures written { IfOk result (λ records. file_of (net_of (map weight_from records.nodes.now) (map pipe_from records.pipes.now)) ≡ file.now) }
    {
        let [b'D', b'Z', b'N', v1, v0, nodes, p1, p0, records @ ..] = file else {
            return Err(file_fault(Refusal::NotANetworkFile, mark_place(file)));
        };
        if u16::from_be_bytes([*v1, *v0]) != VERSION {
            return Err(file_fault(Refusal::UnknownVersion, VERSION_PLACE));
        }
        let nodes = usize::from(*nodes);
        if nodes > MAX_NODES {
            return Err(file_fault(Refusal::TooManyNodesOrPipes, NODE_COUNT_PLACE));
        }
        let pipes = usize::from(u16::from_be_bytes([*p1, *p0]));
        if pipes > MAX_PIPES {
            return Err(file_fault(Refusal::TooManyNodesOrPipes, PIPE_COUNT_PLACE));
        }
        let size = Counts { nodes, pipes }.file_size();
        if file.len() != size {
            return Err(file_fault(Refusal::WrongFileLength, size.min(file.len())));
        }
        let (nodes, pipes) = records.split_at(NODE_SIZE * nodes);
        let (nodes, _) = nodes.as_chunks();
        let (pipes, _) = pipes.as_chunks();
        Ok(Records { nodes, pipes })
    }
}
