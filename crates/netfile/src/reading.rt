// Records tested, and made into a network.
ghost use Rattle.std.specs.Prelude.{◌≡◌, ◌+◌, ◌*◌, ◌^◌, ◌<◌, map, fold, length, None};
ghost use Rattle.network.specs.Edits.{edited};
ghost use Rattle.network.specs.Net.{empty};
ghost use Rattle.network.specs.Refusals.{answer};
ghost use Rattle.network.specs.View.{view};
ghost use Rattle.netfile.specs.Answers.{AllAccepted};
ghost use Rattle.netfile.specs.Format.{net_of, pipe_from, weight_from};
ghost use Rattle.netfile.specs.Meaning.{at_place, first_fault, records_fault};

use crate::counts::Counts;
use crate::header::{HEADER_SIZE, Records, file_fault};
use crate::record::{NODE_SIZE, PIPE_SIZE, Record, record_place};
use faults::fault::Fault;
use network::network::Network;
use network::pipe::Pipe;

// Refuses a record that does not fit a network of so many nodes. It begins at this place.
fn check_record<const SIZE: usize, R: Record<SIZE>>(
    bytes: &[u8; SIZE],
    place: usize,
    nodes: usize,
) -> Result<(), Fault>
    ensures { result ≡ answer (at_place place (R.fault nodes (R.read bytes.now))) tt }
{
    R::from_bytes(bytes)
        .check(nodes)
        .map_err(|fault| file_fault(fault.refusal, place))
}

// Refuses the first record that does not fit a network of so many nodes. The first of all begins at this place.
#[tactic(auto, using(crate::proofs::Scanning::scanned_more, crate::proofs::Scanning::scanned_ok))]
fn check_records<const SIZE: usize, R: Record<SIZE>>(
    records: &[[u8; SIZE]],
    start: usize,
    nodes: usize,
) -> Result<(), Fault>
    requires { start + SIZE * length records.now < 2 ^ 32 }
    ensures { result ≡ answer (first_fault (λ bytes. R.fault nodes (R.read bytes)) SIZE start records.now) tt }
{
    for (index, record) in records.iter().enumerate() {
        check_record::<SIZE, R>(record, record_place::<SIZE>(start, index), nodes)?;
    }
    Ok(())
}

// Adds what each record says to a network that refuses none of it.
fn add_records<const SIZE: usize, R: Record<SIZE>>(records: &[[u8; SIZE]], network: &mut Network)
    requires { AllAccepted (view network.old) (map R.edit (map R.read records.now)) }
    ensures { view network.new ≡ fold edited (view network.old) (map R.edit (map R.read records.now)) }
{
    for record in records {
        R::from_bytes(record).add_to(network);
    }
}

impl Records<'_> {
    // Refuses the first record that does not fit, of the nodes and then of the pipes.
    pub(crate) fn check(&self) -> Result<(), Fault>
        ensures { result ≡ answer (records_fault self.now.nodes.now self.now.pipes.now) tt }
    {
        let counts = Counts {
            nodes: self.nodes.len(),
            pipes: self.pipes.len(),
        };
        check_records::<NODE_SIZE, u32>(self.nodes, HEADER_SIZE, counts.nodes)?;
        check_records::<PIPE_SIZE, Pipe<u32>>(self.pipes, counts.pipes_place(), counts.nodes)
    }

    // Makes a network without nodes the one that the records say. They are tested, so that none is refused.
    #[tactic(auto, using(crate::proofs::Filling::nodes_accepted, crate::proofs::Filling::weights_added, crate::proofs::Filling::pipes_accepted_behind, crate::proofs::Filling::pipes_added))]
    pub(crate) fn add_to(&self, network: &mut Network)
        requires tested { records_fault self.now.nodes.now self.now.pipes.now ≡ None }
        requires blank { view network.old ≡ empty }
        ensures { view network.new ≡ net_of (map weight_from self.now.nodes.now) (map pipe_from self.now.pipes.now) }
    {
        add_records::<NODE_SIZE, u32>(self.nodes, network);
        add_records::<PIPE_SIZE, Pipe<u32>>(self.pipes, network);
    }
}
