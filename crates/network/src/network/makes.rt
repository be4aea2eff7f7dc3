ghost use Rattle.std.specs.Prelude.{◌≡◌, IfOk};
ghost use Rattle.network.specs.Net.{empty};
ghost use Rattle.network.specs.View.{view};

use super::Network;
use crate::limits::{MAX_NODES, MAX_PIPES};
use std::alloc::{AllocError, Global};

impl Network {
    // A network without nodes, or an error where there is no memory for the most that it may hold.
    pub fn new(heap: Global) -> Result<Network, AllocError>
        ensures { IfOk result (λ network. view network ≡ empty) }
    {
        let weights = Vec::with_capacity(heap, MAX_NODES)?;
        let pipes = Vec::with_capacity(heap, MAX_PIPES)?;
        Ok(Network { weights, pipes })
    }
}
