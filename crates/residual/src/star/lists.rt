ghost use Rattle.std.specs.Prelude.{◌≡◌, ℕ, [], ◌<◌, ◌≤◌, length, Some, None, IfOk, slice_index_or, slice_set};
ghost use Rattle.residual.specs.Arcs.{arc_at};
ghost use Rattle.residual.specs.Laid.{max_arcs, max_vertices};
ghost use Rattle.residual.specs.Star.{Indexed};

use super::{ForwardStar, StarMemory};
use crate::arcs::{Arc, MAX_ARCS, MAX_VERTICES};
use std::alloc::{AllocError, Global};

impl StarMemory {
    // The memory for every flow network within the limits, with no arc listed.
    pub(crate) fn new(heap: Global) -> Result<StarMemory, AllocError>
        ensures { IfOk result (λ star. Indexed [] star.heads.items star.nexts.items) }
    {
        Ok(StarMemory {
            heads: vec![in heap; None; MAX_VERTICES]?,
            nexts: vec![in heap; None; MAX_ARCS]?,
        })
    }

    // Lists the arcs of each vertex.
    pub(crate) fn index(&mut self, arcs: &[Arc])
        requires vertices { (k : ℕ) → k < length arcs.now → (arc_at arcs.now k).from < max_vertices }
        requires room { length arcs.now ≤ max_arcs }
        ensures { Indexed arcs.now self.new.heads.items self.new.nexts.items }
    {
        index(arcs, self.heads.as_mut_slice(), self.nexts.as_mut_slice());
    }

    // The lists, lent.
    pub(crate) fn lent(&self) -> ForwardStar<'_>
        ensures heads { result.heads.now ≡ self.now.heads.items }
        ensures nexts { result.nexts.now ≡ self.now.nexts.items }
    {
        ForwardStar {
            heads: self.heads.as_slice(),
            nexts: self.nexts.as_slice(),
        }
    }
}

// Puts arc `k` before the others that start at its vertex.
fn link(heads: &mut [Option<usize>], nexts: &mut [Option<usize>], from: usize, k: usize)
    requires vertex { from < length heads.old }
    requires arc { k < length nexts.old }
    ensures heads { heads.new ≡ slice_set heads.old from (Some k) }
    ensures nexts { nexts.new ≡ slice_set nexts.old k (slice_index_or heads.old from None) }
{
    nexts[k] = heads[from];
    heads[from] = Some(k);
}

// Lists the arcs of each vertex.
// (Over two lent lists of any length: a public function keeps what it promises.)
#[tactic(auto, using(crate::proofs::Indexing::listed_more, crate::proofs::Indexing::listed_all))]
pub fn index(arcs: &[Arc], heads: &mut [Option<usize>], nexts: &mut [Option<usize>])
    requires vertices { (k : ℕ) → k < length arcs.now → (arc_at arcs.now k).from < length heads.old }
    requires room { length arcs.now ≤ length nexts.old }
    ensures { Indexed arcs.now heads.new nexts.new }
{
    heads.fill(None);
    for (k, arc) in arcs.iter().enumerate() {
        link(heads, nexts, arc.from, k);
    }
}
