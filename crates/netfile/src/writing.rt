// A network's file, written into a buffer.
ghost use Rattle.std.specs.Prelude.{◌≡◌, ◌+◌, ◌*◌, ◌^◌, ◌<◌, ◌≤◌, length, None};
ghost use Rattle.std.specs.List.{All, flat_map};
ghost use Rattle.network.specs.Limits.{max_nodes};
ghost use Rattle.network.specs.View.{view};
ghost use Rattle.netfile.specs.Answers.{over, overwritten};
ghost use Rattle.netfile.specs.Format.{file_of, header, header_size};

use crate::counts::Counts;
use crate::header::{HEADER_SIZE, VERSION};
use crate::record::{NODE_SIZE, PIPE_SIZE, Record, record_place};
use network::network::Network;
use network::pipe::Pipe;

// Writes the bytes over those of the buffer from this place on.
// (That there is room stands in each contract here, since the buffer is the caller's, of any length.)
fn put(out: &mut [u8], place: usize, bytes: &[u8])
    requires { place + length bytes.now ≤ length out.old }
    ensures { out.new ≡ overwritten out.old place bytes.now }
{
    out[place..place + bytes.len()].copy_from_slice(bytes);
}

// Writes the leading bytes of a file of so many nodes and pipes.
fn put_header(out: &mut [u8], counts: Counts)
    requires { header_size ≤ length out.old }
    ensures { out.new ≡ overwritten out.old 0 (header counts.nodes counts.pipes) }
{
    let [v1, v0] = VERSION.to_be_bytes();
    let [p1, p0] = (counts.pipes as u16).to_be_bytes();
    let header = [b'D', b'Z', b'N', v1, v0, counts.nodes as u8, p1, p0];
    put(out, 0, &header);
}

// Writes the record of each value, from this place of the buffer on.
// (By the index of each value: a zip with pieces of the buffer was tried, and its proof did not close.)
fn put_records<const SIZE: usize, R: Record<SIZE>>(out: &mut [u8], start: usize, values: &[R])
    requires room { start + SIZE * length values.now ≤ length out.old }
    requires short { start + SIZE * length values.now < 2 ^ 32 }
    requires fit { All (λ value. R.fault max_nodes value ≡ None) values.now }
    ensures { out.new ≡ overwritten out.old start (flat_map R.written values.now) }
{
    for (index, value) in values.iter().enumerate() {
        put(out, record_place::<SIZE>(start, index), &value.to_bytes());
    }
}

// How long the network's file is.
#[tactic(auto, using(crate::proofs::Files::length_of_file))]
pub(crate) fn size_of(network: &Network) -> usize
    ensures { result ≡ length (file_of (view network.now)) }
{
    Counts::of(network).file_size()
}

// Writes the network's file to the front of the buffer.
#[tactic(auto, using(crate::proofs::Files::weights_fit, crate::proofs::Files::pipes_fit, crate::proofs::Files::length_of_file, crate::proofs::Files::file_pasted))]
pub(crate) fn put_file(out: &mut [u8], network: &Network)
    requires room { length (file_of (view network.now)) ≤ length out.old }
    ensures { out.new ≡ over (file_of (view network.now)) out.old }
{
    let counts = Counts::of(network);
    let weights = network.weights();
    let pipes = network.pipes();
    put_header(out, counts);
    put_records::<NODE_SIZE, u32>(out, HEADER_SIZE, weights);
    put_records::<PIPE_SIZE, Pipe<u32>>(out, counts.pipes_place(), pipes);
}
