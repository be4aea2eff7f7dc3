ghost use Rattle.std.specs.Prelude.{◌≡◌, Some};
ghost use Rattle.faults.specs.Faults.{fault_at};
ghost use Rattle.faults.specs.Numbers.{number};
ghost use Rattle.faults.specs.Words.{fault_text};

use crate::layer::Layer;
use crate::refusal::Refusal;
use std::error::Error;
use std::fmt;

// What a call that refuses answers: why, in which layer, and where.
// The place is 0 unless a rule of the call says otherwise.
// (No `Option`: the rules give every fault a place, and 0 where there is none of its own.)
#[derive(Clone, Copy, PartialEq, Eq, Debug)]
pub struct Fault {
    pub refusal: Refusal,
    pub layer: Layer,
    pub place: usize,
}

impl Fault {
    // A fault that this layer reports, with no place of its own.
    pub fn of(layer: Layer, refusal: Refusal) -> Fault
        ensures { result ≡ fault_at refusal layer 0 }
    {
        Fault {
            refusal,
            layer,
            place: 0,
        }
    }

    // The same fault at this place.
    pub fn at(self, place: usize) -> Fault
        ensures { result ≡ fault_at self.refusal self.layer place }
    {
        Fault { place, ..self }
    }

    // The number of the refusal.
    pub fn number(self) -> u8
        ensures { result ≡ number self.refusal }
    {
        self.refusal.number()
    }
}

impl fmt::Display for Fault {
    ghost output = { λ fault. Some (fault_text fault) };

    fn fmt<W: fmt::Write>(&self, f: &mut fmt::Formatter<W>) -> fmt::Result {
        write!(
            f,
            "{} (refusal {}, layer {}, place {})",
            self.refusal,
            self.number(),
            self.layer,
            self.place
        )
    }
}

impl Error for Fault {}
