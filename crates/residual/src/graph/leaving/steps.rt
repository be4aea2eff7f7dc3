use super::Leaving;
use crate::arcs::Arc;

impl Iterator for Leaving<'_> {
    ghost use Rattle.std.specs.Iterator.{at_most};
    ghost use Rattle.residual.specs.Star.{ahead};
    ghost use Rattle.residual.specs.Leaving.{GoesOn};

    type Item = (usize, Arc);

    ghost next_gives = { GoesOn };

    ghost remaining = { λ s. at_most (ahead s.next) };

    fn next(&mut self) -> Option<(usize, Arc)> {
        let k = self.next?;
        self.next = self.graph.star.nexts[k];
        Some((k, self.graph.arcs[k]))
    }
}
