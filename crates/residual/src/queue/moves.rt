ghost use Rattle.std.specs.Prelude.{◌≡◌, ◌+◌, [], ◌∷◌, ◌++◌, length, if◌then◌else◌, MatchOption, nat_lt};
ghost use Rattle.std.specs.Option.{option_to_list};
ghost use Rattle.std.specs.Result.{is_ok, IfErr};
ghost use Rattle.residual.specs.Waiting.{room, waiting};

use super::Queue;

impl<'a, T: Copy> Queue<'a, T> {
    // An empty queue with room for as many pushes as there are slots.
    pub fn new(slots: &'a mut [T]) -> Queue<'a, T>
        ensures empty { waiting result ≡ [] }
        ensures start { (result.head ≡ 0) × (result.tail ≡ 0) }
        ensures room { room result ≡ length slots.old }
    {
        Queue {
            slots,
            head: 0,
            tail: 0,
        }
    }

    // Puts `x` behind all that waits; or gives it back, and does nothing, where every slot was used.
    #[tactic(auto, using(crate::proofs::Queueing::between_push))]
    pub fn push(&mut self, x: T) -> Result<(), T>
        ensures fits { is_ok result ≡ nat_lt self.old.tail (room self.old) }
        ensures queued { waiting self.new ≡ (if is_ok result then waiting self.old ++ x ∷ [] else waiting self.old) }
        ensures kept { self.new.head ≡ self.old.head }
        ensures used { self.new.tail ≡ (if is_ok result then self.old.tail + 1 else self.old.tail) }
        ensures room { room self.new ≡ room self.old }
        ensures returned { IfErr result (λ y. y ≡ x) }
    {
        if self.tail >= self.slots.len() {
            return Err(x);
        }
        self.slots[self.tail] = x;
        self.tail += 1;
        Ok(())
    }

    // Takes out what has waited longest.
    #[tactic(auto, using(crate::proofs::Queueing::between_pop))]
    pub fn pop(&mut self) -> Option<T>
        ensures next { MatchOption result (waiting self.old ≡ []) (λ x. waiting self.old ≡ x ∷ waiting self.new) }
        ensures ahead { self.new.head ≡ self.old.head + length (option_to_list result) }
        ensures used { self.new.tail ≡ self.old.tail }
        ensures room { room self.new ≡ room self.old }
    {
        if self.head == self.tail {
            return None;
        }
        let x = self.slots[self.head];
        self.head += 1;
        Some(x)
    }
}
