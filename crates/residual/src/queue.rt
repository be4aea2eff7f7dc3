ghost use Rattle.std.specs.Prelude.{◌≤◌, length};

mod moves;

// A queue in lent slots: what waits stands from `head` to `tail`. A slot is used once.
// (Lent slots with two places beside them: memory is fixed, and whoever searches has reserved it.)
#[derive(Drop)]
pub struct Queue<'a, T> {
    slots: &'a mut [T],
    head: usize,
    tail: usize,
    ghost ordered: { head ≤ tail },
    ghost within: { tail ≤ length slots.now },
}
