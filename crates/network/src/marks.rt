// The test of marks, and the fault of those that fail it.
ghost use Rattle.std.specs.Prelude.{◌≡◌, not, position};
ghost use Rattle.network.specs.Marks.{bad_marks, is_mark};

use faults::fault::Fault;
use faults::layer::Layer;
use faults::refusal::Refusal;

// The place of the first mark that is neither 0 nor 1, if there is one.
pub(crate) fn first_bad_mark(marks: &[u8]) -> Option<usize>
    ensures { result ≡ position (λ mark. not (is_mark mark)) marks.now }
{
    marks.iter().position(|mark| *mark > 1)
}

// The fault of marks at this place.
pub(crate) fn bad_marks(place: usize) -> Fault
    ensures { result ≡ bad_marks place }
{
    Fault::of(Layer::Board, Refusal::BadMarks).at(place)
}
