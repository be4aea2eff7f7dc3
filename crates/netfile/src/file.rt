ghost use Rattle.std.specs.Prelude.{◌≡◌, length, take, IfOk, Ok, OnOk};
ghost use Rattle.network.specs.View.{view};
ghost use Rattle.netfile.specs.Answers.{after_read, after_write, read_answer, write_answer};
ghost use Rattle.netfile.specs.Format.{file_of};
ghost use Rattle.netfile.specs.Meaning.{meaning};

use crate::header::Records;
use crate::writing::{put_file, size_of};
use faults::fault::Fault;
use faults::layer::Layer;
use faults::refusal::Refusal;
use network::network::Network;

// Puts the file's network in place of the one given. A refused file leaves that one as it was.
#[tactic(auto, using(crate::proofs::Cutting::length_chunked))]
pub fn read(file: &[u8], network: &mut Network) -> Result<(), Fault>
    ensures answer { result ≡ read_answer file.now }
    ensures after { view network.new ≡ after_read file.now (view network.old) }
    ensures written { OnOk result (file_of (view network.new) ≡ file.now) }
{
    let records = Records::open(file)?;
    records.check()?;
    network.clear();
    records.add_to(network);
    Ok(())
}

// Writes the network's file to the front of the buffer, and answers its length.
#[tactic(auto, using(crate::proofs::Written::front_loads))]
pub fn write(network: &Network, out: &mut [u8]) -> Result<usize, Fault>
    ensures answer { result ≡ write_answer (view network.now) (length out.old) }
    ensures after { out.new ≡ after_write (view network.now) out.old }
    ensures loads { IfOk result (λ size. meaning (take size out.new) ≡ Ok (view network.now)) }
{
    let size = size_of(network);
    if out.len() < size {
        return Err(Fault::of(Layer::File, Refusal::BufferTooShort));
    }
    put_file(out, network);
    Ok(size)
}
