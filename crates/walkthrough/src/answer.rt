// What the calls of the walk answer, and how it is printed.
use faults::fault::Fault;
use std::{fmt, io};

// What a call that was accepted has done: made a node or a pipe of this number, written so many bytes, or changed
// something that was there.
#[derive(Clone, Copy)]
pub(crate) enum Done {
    Node(usize),
    Pipe(usize),
    Bytes(usize),
    Changed,
}

impl fmt::Display for Done {
    fn fmt<W: fmt::Write>(&self, f: &mut fmt::Formatter<W>) -> fmt::Result {
        match *self {
            Done::Node(number) => write!(f, "node {number}"),
            Done::Pipe(number) => write!(f, "pipe {number}"),
            Done::Bytes(size) => write!(f, "{size} bytes"),
            Done::Changed => f.write_str("done"),
        }
    }
}

// Prints a call and its answer.
pub(crate) fn tell<C: fmt::Display>(
    rt: &impl Print,
    call: &C,
    answer: Result<Done, Fault>,
) -> io::Result<()> {
    match answer {
        Ok(done) => println!(rt; "{call}: {done}"),
        Err(fault) => println!(rt; "{call}: refused, {fault}"),
    }
}
