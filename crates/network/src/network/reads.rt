ghost use Rattle.std.specs.Prelude.{◌≡◌};
ghost use Rattle.network.specs.Limits.{WithinLimits};
ghost use Rattle.network.specs.View.{view};

use super::Network;
use crate::pipe::Pipe;

// (Two calls: one function for both lists would have to be told which, and be no plainer.)
impl Network {
    // The weight of each node, by its number.
    pub fn weights(&self) -> &[u32]
        ensures value { result.now ≡ (view self.now).weights }
        ensures limits { WithinLimits (view self.now) }
    {
        self.weights.as_slice()
    }

    // The pipes, by their numbers.
    pub fn pipes(&self) -> &[Pipe<u32>]
        ensures value { result.now ≡ (view self.now).pipes }
        ensures limits { WithinLimits (view self.now) }
    {
        self.pipes.as_slice()
    }
}
