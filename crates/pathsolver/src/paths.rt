ghost use Rattle.std.specs.Prelude.{◌≡◌, vec_len};
ghost use Rattle.residual.specs.Laid.{max_vertices};

use crate::step::Step;

mod sends;

// The memory of the search for shortest paths, reserved once for the largest flow network.
// `visits` has for each vertex the step by which it was reached.
// (No one type with `Marker`: a search needs both lists at once, and to lend two parts of a shared type is no plainer.)
#[derive(Drop)]
pub(crate) struct PathSearch {
    visits: Vec<Option<Step>>,
    steps: Vec<Step>,
    ghost vertices: { vec_len visits ≡ max_vertices },
    ghost queued: { vec_len steps ≡ max_vertices },
}
