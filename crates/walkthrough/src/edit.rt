// The edits of the walk. Each prints what it does, and is made by one call of the network.
ghost use Rattle.std.specs.Prelude.{◌≡◌};
ghost use Rattle.network.specs.Edits.{after_edit, edit_refusal};
ghost use Rattle.network.specs.Refusals.{answer};
ghost use Rattle.network.specs.View.{view};
ghost use Rattle.walkthrough.specs.Edits.{done_by, edit_of};

use crate::answer::Done;
use faults::fault::Fault;
use network::network::Network;
use std::fmt;

// An edit of the town's network.
#[derive(Clone, Copy)]
pub(crate) enum Edit {
    Add {
        weight: u32,
    },
    Weigh {
        node: usize,
        weight: u32,
    },
    Join {
        first: usize,
        second: usize,
        cost: u32,
    },
    Remove {
        pipe: usize,
    },
}

impl Edit {
    // Makes the edit, and answers what it has done or why it is refused.
    pub(crate) fn apply(self, town: &mut Network) -> Result<Done, Fault>
        ensures answer { result ≡ answer (edit_refusal (view town.old) (edit_of self)) (done_by (view town.old) self) }
        ensures after { view town.new ≡ after_edit (view town.old) (edit_of self) }
    {
        match self {
            Edit::Add { weight } => town.add_node(weight).map(Done::Node),
            Edit::Weigh { node, weight } => town.weigh(node, weight).map(|()| Done::Changed),
            Edit::Join {
                first,
                second,
                cost,
            } => town.join(first, second, cost).map(Done::Pipe),
            Edit::Remove { pipe } => town.remove(pipe).map(|()| Done::Changed),
        }
    }
}

impl fmt::Display for Edit {
    fn fmt<W: fmt::Write>(&self, f: &mut fmt::Formatter<W>) -> fmt::Result {
        match *self {
            Edit::Add { weight } => write!(f, "add a node of weight {weight}"),
            Edit::Weigh { node, weight } => write!(f, "give node {node} the weight {weight}"),
            Edit::Join {
                first,
                second,
                cost,
            } => write!(f, "join nodes {first} and {second} at cost {cost}"),
            Edit::Remove { pipe } => write!(f, "remove pipe {pipe}"),
        }
    }
}
