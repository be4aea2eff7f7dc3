ghost use Rattle.std.specs.Prelude.{◌≡◌, ◌+◌, ◌^◌, ◌<◌};
ghost use Rattle.pathsolver.specs.Onward.{onward, start};

use residual::arcs::Arc;

// A step of the search: a vertex, the arc by which it was reached (the source by none), how many arcs the path to it
// has, and how much can be sent along the whole path.
// (The arc by its number, and the step before by the arc's vertex, since a solve may not allocate.)
#[derive(Clone, Copy)]
pub struct Step {
    pub(crate) vertex: usize,
    pub(crate) via: Option<usize>,
    pub(crate) distance: usize,
    pub(crate) room: u64,
}

impl Step {
    // The step at the source, where each path starts.
    pub(crate) fn start(source: usize) -> Step
        ensures { result ≡ start source }
    {
        Step {
            vertex: source,
            via: None,
            distance: 0,
            room: u64::MAX,
        }
    }

    // The step over arc `k` to the vertex where it ends.
    pub(crate) fn onward(self, k: usize, arc: Arc) -> Step
        requires { self.distance + 1 < 2 ^ 64 }
        ensures { result ≡ onward self k arc }
    {
        Step {
            vertex: arc.to,
            via: Some(k),
            distance: self.distance + 1,
            room: self.room.min(arc.remaining),
        }
    }
}
