ghost use Rattle.std.specs.Prelude.{◌≡◌};
ghost use Rattle.network.specs.Edits.{add_answer, after_edit, join_answer, remove_answer, weigh_answer};
ghost use Rattle.network.specs.Edits.Edit.{add, join, remove, weigh};
ghost use Rattle.network.specs.Net.{empty};
ghost use Rattle.network.specs.View.{view};

use super::Network;
use crate::limits::{MAX_NODES, MAX_PIPES, check_pipe, check_weight, refuse_if};
use crate::pipe::Pipe;
use faults::fault::Fault;
use faults::refusal::Refusal;

impl Network {
    // Adds a node of this weight, and answers its number.
    #[tactic(auto, using(crate::proofs::Keeps::add_keeps))]
    pub fn add_node(&mut self, weight: u32) -> Result<usize, Fault>
        ensures answer { result ≡ add_answer (view self.old) weight }
        ensures after { view self.new ≡ after_edit (view self.old) (add weight) }
    {
        let node = self.weights.len();
        refuse_if(node >= MAX_NODES, Refusal::TooManyNodesOrPipes)?;
        check_weight(weight)?;
        self.weights.push_reserved(weight);
        Ok(node)
    }

    // Gives the node this weight.
    #[tactic(auto, using(crate::proofs::Keeps::weigh_keeps))]
    pub fn weigh(&mut self, node: usize, weight: u32) -> Result<(), Fault>
        ensures answer { result ≡ weigh_answer (view self.old) node weight }
        ensures after { view self.new ≡ after_edit (view self.old) (weigh node weight) }
    {
        check_weight(weight)?;
        refuse_if(node >= self.weights.len(), Refusal::BadNodeOrPipe)?;
        self.weights[node] = weight;
        Ok(())
    }

    // Lays a pipe between two nodes at this cost, and answers its number.
    #[tactic(auto, using(crate::proofs::Keeps::join_keeps))]
    pub fn join(&mut self, first: usize, second: usize, cost: u32) -> Result<usize, Fault>
        ensures answer { result ≡ join_answer (view self.old) first second cost }
        ensures after { view self.new ≡ after_edit (view self.old) (join first second cost) }
    {
        let number = self.pipes.len();
        refuse_if(number >= MAX_PIPES, Refusal::TooManyNodesOrPipes)?;
        let pipe = Pipe {
            first,
            second,
            cost,
        };
        check_pipe(self.weights.len(), pipe)?;
        self.pipes.push_reserved(pipe);
        Ok(number)
    }

    // Takes the pipe out; each later pipe's number falls by one.
    #[tactic(auto, using(crate::proofs::Keeps::remove_keeps))]
    pub fn remove(&mut self, pipe: usize) -> Result<(), Fault>
        ensures answer { result ≡ remove_answer (view self.old) pipe }
        ensures after { view self.new ≡ after_edit (view self.old) (remove pipe) }
    {
        refuse_if(pipe >= self.pipes.len(), Refusal::BadNodeOrPipe)?;
        let _ = self.pipes.remove(pipe);
        Ok(())
    }

    // Takes out every node and every pipe. The room that is reserved for them stays.
    pub fn clear(&mut self)
        ensures { view self.new ≡ empty }
    {
        self.pipes.clear();
        self.weights.clear();
    }
}
