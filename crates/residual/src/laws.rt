// Laws that solvers share. Each function's contract is its law; the function itself has nothing to do.
ghost use Rattle.residual.specs.Identity.{IdentityKept};
ghost use Rattle.residual.specs.Laws.{PushMoves, ReachedIsSmallest};

// A push moves its amount from the vertex where the arc starts to the one where it ends, for every set of vertices.
pub fn push_moves()
    ensures { PushMoves }
{}

// The residual identity holds at the start, and every movement keeps it.
pub fn identity_kept()
    ensures { IdentityKept }
{}

// Once no more can be sent, the nodes that the source reaches are the smallest minimum cut.
pub fn reached_is_smallest()
    ensures { ReachedIsSmallest }
{}
