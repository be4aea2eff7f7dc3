// What a record of a network file holds: the weight of a node, or a pipe.
ghost use Rattle.std.specs.Prelude.{◌≡◌, ℕ, ◌+◌, ◌*◌, ◌^◌, ◌<◌, List, None, Option};
ghost use Rattle.faults.specs.declared.fault.Fault.{Fault};
ghost use Rattle.network.specs.Edits.{Edit, edit_refusal, edited, pipe_fault, weight_fault};
ghost use Rattle.network.specs.Edits.Edit.{add, join};
ghost use Rattle.network.specs.Limits.{max_nodes};
ghost use Rattle.network.specs.Refusals.{answer};
ghost use Rattle.network.specs.View.{view};
ghost use Rattle.netfile.specs.Format.{node_record, pipe_from, pipe_record, weight_from};
ghost use Rattle.netfile.specs.Records.{RecordLaws, node_laws, pipe_laws};

use faults::fault::Fault;
use network::limits::{check_pipe, check_weight};
use network::network::Network;
use network::pipe::Pipe;

// How many bytes the record of a node and of a pipe has.
pub(crate) const NODE_SIZE: usize = 2;

pub(crate) const PIPE_SIZE: usize = 4;

// Where the record of this index begins, where each has so many bytes and the first begins at this place. The bound is far
// above the length of any file, and keeps the sum within 64 bits.
pub(crate) fn record_place<const SIZE: usize>(start: usize, index: usize) -> usize
    requires { start + SIZE * index < 2 ^ 32 }
    ensures { result ≡ start + SIZE * index }
{
    start + index * SIZE
}

// A value that a record of so many bytes holds.
pub(crate) trait Record<const SIZE: usize>: Copy {
    // What the bytes of a record say, and the bytes of the record of a value.
    ghost read: { List ℕ → Self };

    ghost written: { Self → List ℕ };

    // The fault of a value where there are so many nodes, if it has one.
    ghost fault: { ℕ → Self → Option Fault };

    // The edit that adds the value to a network.
    ghost edit: { Self → Edit };

    // The value that the record of these bytes holds.
    fn from_bytes(bytes: &[u8; SIZE]) -> Self
        ensures { result ≡ read bytes.now };

    // The bytes of the value's record, where it has no fault in a network of as many nodes as there may be.
    fn to_bytes(self) -> [u8; SIZE]
        requires { fault max_nodes self ≡ None }
        ensures { result ≡ written self };

    // Refuses a value that does not fit a network of so many nodes.
    fn check(self, nodes: usize) -> Result<(), Fault>
        ensures { result ≡ answer (fault nodes self) tt };

    // Adds the value to a network that does not refuse it.
    fn add_to(self, network: &mut Network)
        requires { edit_refusal (view network.old) (edit self) ≡ None }
        ensures { view network.new ≡ edited (view network.old) (edit self) };

    // A value is written as so many bytes and read back, and so many bytes are written back as they were read.
    ghost laws: { RecordLaws SIZE read written };
}

// The weight of a node.
impl Record<NODE_SIZE> for u32 {
    ghost read = { weight_from };

    ghost written = { node_record };

    ghost fault = { λ nodes weight. weight_fault weight };

    ghost edit = { add };

    ghost laws = { node_laws };

    fn from_bytes(bytes: &[u8; NODE_SIZE]) -> u32 {
        u32::from(u16::from_be_bytes(*bytes))
    }

    fn to_bytes(self) -> [u8; NODE_SIZE] {
        (self as u16).to_be_bytes()
    }

    fn check(self, _nodes: usize) -> Result<(), Fault> {
        check_weight(self)
    }

    fn add_to(self, network: &mut Network) {
        network.add_node(self).unwrap();
    }
}

impl Record<PIPE_SIZE> for Pipe<u32> {
    ghost read = { pipe_from };

    ghost written = { pipe_record };

    ghost fault = { pipe_fault };

    ghost edit = { λ pipe. join pipe.first pipe.second pipe.cost };

    ghost laws = { pipe_laws };

    fn from_bytes(bytes: &[u8; PIPE_SIZE]) -> Pipe<u32> {
        let [first, second, c1, c0] = *bytes;
        Pipe {
            first: usize::from(first),
            second: usize::from(second),
            cost: u32::from(u16::from_be_bytes([c1, c0])),
        }
    }

    fn to_bytes(self) -> [u8; PIPE_SIZE] {
        let [c1, c0] = (self.cost as u16).to_be_bytes();
        [self.first as u8, self.second as u8, c1, c0]
    }

    fn check(self, nodes: usize) -> Result<(), Fault> {
        check_pipe(nodes, self)
    }

    fn add_to(self, network: &mut Network) {
        network.join(self.first, self.second, self.cost).unwrap();
    }
}
