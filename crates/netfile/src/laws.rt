// Laws of the network file. Each function's contract is its laws; the function itself has nothing to do.
ghost use Rattle.netfile.specs.Laws.{AcceptedExactly, AcceptedIsWrittenBack, FirstFaultyRecord, WrittenInBytes, WrittenLoadsAsItself};
ghost use Rattle.netfile.specs.Worked.{Worked};

// A network written to a file loads as itself, and an accepted file is written back byte by byte.
#[tactic(auto, using(crate::proofs::Written::written_loads_as_itself, crate::proofs::Accepted::accepted_is_written_back))]
pub fn round_trips()
    ensures loads { WrittenLoadsAsItself }
    ensures written { AcceptedIsWrittenBack }
{}

// A list of bytes is accepted as a network exactly where it is the file of that network, and the network is within
// the limits. The file of such a network is a list of bytes.
pub fn accepted_files()
    ensures exactly { AcceptedExactly }
    ensures bytes { WrittenInBytes }
{}

// Records are refused exactly by the fault of the first faulty one, at the place of its first byte.
pub fn refused_records()
    ensures { FirstFaultyRecord }
{}

// The definitions give the files worked by hand.
#[tactic(auto, unfolding(crate::specs::Format::file_of, crate::specs::Meaning::first_fault))]
pub fn worked_files()
    ensures { Worked }
{}
