// The town's network file: written, read back, and refused where it is damaged.
ghost use Rattle.std.specs.Prelude.{◌≡◌, ◌≤◌, length, IfOk, OnOk};
ghost use Rattle.netfile.specs.Answers.{after_read, after_write, write_answer};
ghost use Rattle.network.specs.View.{view};

use crate::answer::{Done, tell};
use faults::fault::Fault;
use netfile::file::{read, write};
use network::network::Network;
use std::{fmt, io};

// Bytes, printed in hexadecimal.
// (No one type with `District`: they differ in a format, which must be a literal, and a closure for it is no plainer.)
#[derive(Clone, Copy)]
struct Hexadecimal<'a> {
    bytes: &'a [u8],
}

impl fmt::Display for Hexadecimal<'_> {
    fn fmt<W: fmt::Write>(&self, f: &mut fmt::Formatter<W>) -> fmt::Result {
        for byte in self.bytes {
            write!(f, " {byte:02X}")?;
        }
        Ok(())
    }
}

// Writes the town's file into the buffer and reads it back into the copy, which then is the town's network.
// Only the writing can be refused.
fn copy_by_file(town: &Network, file: &mut [u8], copy: &mut Network) -> Result<usize, Fault>
    ensures answer { result ≡ write_answer (view town.now) (length file.old) }
    ensures same { OnOk result (view copy.new ≡ view town.now) }
    ensures fits { IfOk result (λ size. size ≤ length file.new) }
{
    let size = write(town, file)?;
    read(&file[..size], copy)?;
    Ok(size)
}

// Reads the bytes into the network, and prints how it went.
fn try_read(rt: &impl Print, network: &mut Network, file: &[u8], what: &str) -> io::Result<()>
    ensures { view network.new ≡ after_read file.now (view network.old) }
{
    let answer = read(file, network).map(|()| Done::Changed);
    tell(rt, &format_args!("read {what}"), answer)
}

// Writes the network into the buffer, and prints how it went.
fn try_write(rt: &impl Print, network: &Network, out: &mut [u8]) -> io::Result<()>
    ensures { out.new ≡ after_write (view network.now) out.old }
{
    let room = out.len();
    let answer = write(network, out).map(Done::Bytes);
    tell(
        rt,
        &format_args!("write the town into {room} bytes"),
        answer,
    )
}

// Prints the bytes, 16 to a line.
fn show(rt: &impl Print, file: &[u8]) -> io::Result<()> {
    for bytes in file.chunks(16) {
        println!(rt; " {}", Hexadecimal { bytes })?;
    }
    Ok(())
}

// Tries to read damaged copies of the file into the network.
fn try_damaged(rt: &impl Print, network: &mut Network, file: &mut [u8]) -> io::Result<()> {
    let half = file.len() / 2;
    try_read(rt, network, &file[..half], "the first half of the file")?;
    if let Some(weight) = file.get_mut(9) {
        *weight = 0;
    }
    try_read(rt, network, file, "a copy whose node 0 weighs 0")
}

// Writes the town to bytes, reads them back, and tries what is refused.
pub(crate) fn tour(rt: &HostRuntime, town: &Network) -> anyhow::Result<()> {
    let mut copy = Network::new(rt.alloc())?;
    let mut file = [0; 64];
    let size = copy_by_file(town, &mut file, &mut copy)?;
    let file = &mut file[..size];
    println!(rt; "write the town to a file: {size} bytes")?;
    show(rt, file)?;
    let nodes = copy.weights().len();
    let pipes = copy.pipes().len();
    println!(rt; "read them back: {nodes} nodes, {pipes} pipes")?;
    try_damaged(rt, &mut copy, file)?;
    try_write(rt, town, &mut [0; 20])?;
    Ok(())
}
