ghost use Rattle.std.specs.Prelude.{◌≡◌};
ghost use Rattle.network.specs.Answers.{boundary_answer, check_answer, quotient_answer, relative_answer, weight_answer};
ghost use Rattle.network.specs.View.{view};

use super::Network;
use crate::marks::{bad_marks, first_bad_mark};
use crate::node_set::NodeSet;
use faults::fault::Fault;

impl Network {
    // Refuses marks that are not one for each node, each 0 or 1.
    // (Marks are bytes and no truth values, since they are a format: another byte is refused with its place.)
    #[tactic(auto, using(crate::proofs::GoodMarks::all_good))]
    pub fn check_marks(&self, marks: &[u8]) -> Result<(), Fault>
        ensures { result ≡ check_answer (view self.now) marks.now }
    {
        if marks.len() != self.weights.len() {
            return Err(bad_marks(marks.len()));
        }
        match first_bad_mark(marks) {
            Some(place) => Err(bad_marks(place)),
            None => Ok(()),
        }
    }

    // The weight of the marked nodes.
    pub fn weight(&self, marks: &[u8]) -> Result<u32, Fault>
        ensures { result ≡ weight_answer (view self.now) marks.now }
    {
        let set = NodeSet::new(self, marks)?;
        Ok(set.weight())
    }

    // The summed cost of the pipes with exactly one marked end.
    pub fn boundary(&self, marks: &[u8]) -> Result<u32, Fault>
        ensures { result ≡ boundary_answer (view self.now) marks.now }
    {
        let set = NodeSet::new(self, marks)?;
        Ok(set.boundary())
    }

    // The boundary cost of the marked nodes and the weight of the lighter side. A lighter side of 0 has no score.
    // (No `Option`: the rules fix the pair, and the boundary is asked for also where there is no score.)
    pub fn quotient(&self, marks: &[u8]) -> Result<(u32, u32), Fault>
        ensures { result ≡ quotient_answer (view self.now) marks.now }
    {
        let set = NodeSet::new(self, marks)?;
        Ok((set.boundary(), set.lighter_side()))
    }

    // The boundary cost of the marked nodes and their denominator relative to the proposal.
    pub fn relative(&self, proposal: &[u8], marks: &[u8]) -> Result<(u32, i64), Fault>
        ensures { result ≡ relative_answer (view self.now) proposal.now marks.now }
    {
        let proposal = NodeSet::new(self, proposal)?;
        let set = NodeSet::new(self, marks)?;
        Ok((set.boundary(), set.denominator(&proposal)))
    }
}
