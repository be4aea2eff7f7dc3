ghost use Rattle.std.specs.Prelude.{◌≡◌, None};
ghost use Rattle.mincut.specs.Solver.{cut_refusal};
ghost use Rattle.mincut.specs.View.{flow_of};

use crate::flow::FlowNetwork;
use faults::fault::Fault;

// A flow network that no solver refuses. It was tested once, so that a solve tests nothing again.
#[derive(Clone, Copy)]
pub struct AcceptedNetwork<'a> {
    network: FlowNetwork<'a>,
    ghost accepted: { cut_refusal (flow_of network) network.nodes ≡ None },
}

impl<'a> AcceptedNetwork<'a> {
    ghost use Rattle.std.specs.Prelude.{IfOk};
    ghost use Rattle.std.specs.Result.{result_err};

    // The flow network, or the refusal that is due with a marks buffer of this length.
    pub fn new(network: FlowNetwork<'a>, marks: usize) -> Result<AcceptedNetwork<'a>, Fault>
        ensures same { IfOk result (λ accepted. accepted.network ≡ network.entry) }
        ensures marks { IfOk result (λ accepted. accepted.network.nodes ≡ marks) }
        ensures refused { result_err result ≡ cut_refusal (flow_of network.entry) marks }
    {
        network.check(marks)?;
        Ok(AcceptedNetwork { network })
    }

    // The flow network itself.
    pub fn network(self) -> FlowNetwork<'a>
        ensures { result ≡ self.entry.network }
    {
        self.network
    }
}
