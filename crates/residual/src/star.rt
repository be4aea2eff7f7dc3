ghost use Rattle.std.specs.Prelude.{◌≡◌, vec_len};
ghost use Rattle.residual.specs.Laid.{max_arcs, max_vertices};

mod lists;

pub use self::lists::index;

// The arcs of each vertex as a list, the latest first: `heads` has the first of each vertex, and `nexts` for each arc
// the one after it. (The forward star of the network.)
#[derive(Clone, Copy)]
pub struct ForwardStar<'a> {
    pub heads: &'a [Option<usize>],
    pub nexts: &'a [Option<usize>],
}

// The memory of a forward star, reserved once for the largest flow network. (Lists of their own would have to grow,
// and a solve may not allocate.)
#[derive(Drop)]
pub(crate) struct StarMemory {
    pub(crate) heads: Vec<Option<usize>>,
    pub(crate) nexts: Vec<Option<usize>>,
    ghost vertices: { vec_len heads ≡ max_vertices },
    ghost arcs: { vec_len nexts ≡ max_arcs },
}
