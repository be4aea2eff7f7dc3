// Laws of minimum cuts and of their solvers. Each law function's contract is its laws; it has nothing to do.
ghost use Rattle.mincut.specs.Laws.{AnswerExists, OneAnswer, UniqueCut};
ghost use Rattle.mincut.specs.Worked.{Worked};

// A smallest minimum cut is unique among the nodes that there are.
pub fn unique_cut()
    ensures { UniqueCut }
{}

// What a solver answers and marks follows from the flow network and the marks buffer alone.
pub fn one_answer()
    ensures { OneAnswer }
{}

// Every flow network with every marks buffer has an answer: the refusal that is due, or the smallest minimum cut.
pub fn answer_exists()
    ensures { AnswerExists }
{}

// The definitions give the flow networks worked by hand.
pub fn worked_cut()
    ensures { Worked }
{}
