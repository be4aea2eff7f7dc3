// The network. This file has only the type, since a type with a ghost field imports every ghost use of its file.
ghost use Rattle.std.specs.Prelude.{◌≤◌, vec_capacity};
ghost use Rattle.network.specs.Limits.{Limits, max_nodes, max_pipes};

use crate::pipe::Pipe;

mod edits;
mod makes;
mod measures;
mod reads;
mod scores;

// The weight of each node and the pipes, both numbered from 0 in the order in which they were added.
// Room for all that the limits allow is reserved once, so that no call but `new` allocates.
#[derive(Drop)]
pub struct Network {
    weights: Vec<u32>,
    pipes: Vec<Pipe<u32>>,
    ghost room: { (max_nodes ≤ vec_capacity weights) × (max_pipes ≤ vec_capacity pipes) },
    ghost limits: { Limits weights.items pipes.items },
}
