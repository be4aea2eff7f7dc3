ghost use Rattle.std.specs.Prelude.{◌≡◌, Some};
ghost use Rattle.faults.specs.Numbers.{number};
ghost use Rattle.faults.specs.Words.{wording};

use std::fmt;

// The reasons for which a call refuses. A call tests for them in this order and reports the first that applies.
#[derive(Clone, Copy, PartialEq, Eq, Debug)]
pub enum Refusal {
    NotANetworkFile = 1,
    UnknownVersion = 2,
    TooManyNodesOrPipes = 3,
    WrongFileLength = 4,
    WeightOutOfRange = 5,
    BadNodeOrPipe = 6,
    CostOutOfRange = 7,
    BadMarks = 8,
    BadProposal = 9,
    WrongPhase = 10,
    NoReleaseLeft = 11,
    WrongSerial = 12,
    BufferTooShort = 13,
    BadFlowNetwork = 14,
    CapacityTooLarge = 15,
    NotACommand = 16,
}

impl Refusal {
    // The number by which the rules, the formats and the console know the reason.
    pub fn number(self) -> u8
        ensures value { result ≡ number self }
        ensures alone { (other : Refusal) → number other ≡ result → other ≡ self }
    {
        self as u8
    }

    // What is wrong, in words.
    pub(crate) fn wording(self) -> &'static str
        ensures { result.now ≡ wording self }
    {
        match self {
            Refusal::NotANetworkFile => "the file has under 8 bytes or does not begin with DZN",
            Refusal::UnknownVersion => "the file's version is not one that this program reads",
            Refusal::TooManyNodesOrPipes => "there would be over 128 nodes or over 512 pipes",
            Refusal::WrongFileLength => "the file's length is not what its counts demand",
            Refusal::WeightOutOfRange => "a weight is outside 1 to 4000",
            Refusal::BadNodeOrPipe =>
                "a named node or pipe does not exist, or a pipe's ends are the same node",
            Refusal::CostOutOfRange => "a cost is outside 1 to 40000",
            Refusal::BadMarks =>
                "the marks are not as many as the nodes, or one is neither 0 nor 1",
            Refusal::BadProposal => "the proposal is empty or weighs more than the remainder",
            Refusal::WrongPhase => "the phase does not allow the call",
            Refusal::NoReleaseLeft => "the board has given 1000000 releases",
            Refusal::WrongSerial => "the release's serial number is not the board's",
            Refusal::BufferTooShort => "an output buffer is too short for the whole output",
            Refusal::BadFlowNetwork =>
                "a flow network is over the limits, a list or marks buffer has the wrong length, or an end node is missing or doubled",
            Refusal::CapacityTooLarge => "the capacities of a flow network sum to more than 2^62",
            Refusal::NotACommand => "the line is over 400 bytes or is no command",
        }
    }
}

impl fmt::Display for Refusal {
    ghost output = { λ refusal. Some (wording refusal) };

    fn fmt<W: fmt::Write>(&self, f: &mut fmt::Formatter<W>) -> fmt::Result {
        f.write_str(self.wording())
    }
}
