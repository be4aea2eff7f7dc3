// The limits of a network, and the tests of a weight and of a pipe against them.
ghost use Rattle.std.specs.Prelude.{◌≡◌, None};
ghost use Rattle.network.specs.Edits.{bad_ends, pipe_fault, weight_fault};
ghost use Rattle.network.specs.Refusals.{answer, refuse_if};

use crate::pipe::Pipe;
use faults::fault::Fault;
use faults::layer::Layer;
use faults::refusal::Refusal;

pub const MAX_NODES: usize = 128;

pub const MAX_PIPES: usize = 512;

pub const MIN_WEIGHT: u32 = 1;

pub const MAX_WEIGHT: u32 = 4_000;

pub const MIN_COST: u32 = 1;

pub const MAX_COST: u32 = 40_000;

// Refuses for this reason where the condition holds.
pub(crate) fn refuse_if(condition: bool, refusal: Refusal) -> Result<(), Fault>
    ensures { result ≡ answer (refuse_if condition refusal None) tt }
{
    if condition {
        Err(Fault::of(Layer::Board, refusal))
    } else {
        Ok(())
    }
}

// Refuses a weight outside its limits.
pub fn check_weight(weight: u32) -> Result<(), Fault>
    ensures { result ≡ answer (weight_fault weight) tt }
{
    refuse_if(
        !(MIN_WEIGHT..=MAX_WEIGHT).contains(&weight),
        Refusal::WeightOutOfRange,
    )
}

// Whether, of so many nodes, one of the ends does not exist, or both are the same node.
pub fn has_bad_ends(nodes: usize, first: usize, second: usize) -> bool
    ensures { result ≡ bad_ends nodes first second }
{
    first >= nodes || second >= nodes || first == second
}

// Refuses a pipe whose ends are not two different nodes of so many, or whose cost is outside its limits.
pub fn check_pipe(nodes: usize, pipe: Pipe<u32>) -> Result<(), Fault>
    ensures { result ≡ answer (pipe_fault nodes pipe) tt }
{
    refuse_if(
        has_bad_ends(nodes, pipe.first, pipe.second),
        Refusal::BadNodeOrPipe,
    )?;
    refuse_if(
        !(MIN_COST..=MAX_COST).contains(&pipe.cost),
        Refusal::CostOutOfRange,
    )
}
