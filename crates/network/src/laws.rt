// Laws of the edits and of the scores. Each function's contract is its laws; the function itself has nothing to do.
ghost use Rattle.network.specs.Laws.{AcceptedWithinLimits, BoundaryOfComplement, LargestDenominator, NaturalForm, OppositeDenominators, ScoresOrdered, SidesMakeTheWhole, WithinLighterSide};
ghost use Rattle.network.specs.Worked.{Worked};

// An edit is accepted exactly where what it changes is there and the network that it makes is within the limits.
pub fn edit_law()
    ensures { AcceptedWithinLimits }
{}

// A set and its complement weigh what all nodes weigh, and have the same boundary cost.
pub fn complement_laws()
    ensures weight { SidesMakeTheWhole }
    ensures boundary { BoundaryOfComplement }
{}

// The denominators of a set and of its complement sum to 0.
// A proposal's own is its weight times the remainder's, and no set has a larger one.
// Where the proposal weighs at most the remainder, each is at most the remainder's weight times the lighter side's.
// The natural form is the larger of the denominator and 0.
pub fn denominator_laws()
    ensures opposite { OppositeDenominators }
    ensures largest { LargestDenominator }
    ensures lighter { WithinLighterSide }
    ensures natural { NaturalForm }
{}

// Finite relative scores are totally ordered.
pub fn score_order()
    ensures { ScoresOrdered }
{}

// The definitions give the boards worked by hand.
pub fn worked_boards()
    ensures { Worked }
{}
