ghost use Rattle.std.specs.Prelude.{◌≡◌, vec_len};
ghost use Rattle.residual.specs.Laid.{max_vertices};

mod marks;

pub use self::marks::mark_cut;

// The memory of the search that marks the cut, reserved once for the largest flow network: whether each vertex was
// reached, and the slots of the queue. (Not one list of pairs: a queue's slots have nothing to do with the vertices.)
#[derive(Drop)]
pub struct Marker {
    seen: Vec<bool>,
    slots: Vec<usize>,
    ghost vertices: { vec_len seen ≡ max_vertices },
    ghost queued: { vec_len slots ≡ max_vertices },
}
