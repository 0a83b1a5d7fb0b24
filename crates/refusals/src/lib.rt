// Why a call is refused: the refusals and their numbers (document 01, "Refusal numbers", and the requests of document 02). 0 is no refusal. 16, a bad record, the
// bench program writes as a line (`bad_line` in `answer_lines`).
#![tactic(auto)]

ghost use Rattle.std.specs.Prelude.{◌≡◌};
ghost use Rattle.refusals.specs.Numbers.{refusal_number, number_of};

use std::error::Error;
use std::fmt;

// Why a call is refused.
#[derive(Clone, Copy, Debug, PartialEq, Eq)]
pub enum Refusal {
    // A route's length.
    WrongLength = 1,
    // Not route type 4.
    WrongType = 2,
    // An address length that is not 32.
    WrongAddressLength = 3,
    // An identifier that is reserved, or not ten octets.
    EsiReserved = 4,
    // A route of another segment.
    OtherSegment = 5,
    // Address zero.
    AddressZero = 6,
    // The length of a list of communities.
    ListLength = 7,
    // A table that is full.
    TableFull = 8,
    // An address that is not present.
    NotPresent = 9,
    // A reserved tag.
    TagReserved = 10,
    // A ready list that is too long.
    ReadyTooLong = 11,
    // No eligible router.
    NoneEligible = 12,
    // A text that is no identifier (a plate, in document 01).
    EsiText = 13,
    // A buffer that is too short.
    BufferShort = 14,
    // An algorithm that is not usable here.
    AlgorithmNotUsable = 15,
    // A record that breaks the rules of bench records (document 02, M-111).
    BadRecord = 16,
    // A wait that is not 1 to 600 seconds (document 02, M-100).
    WaitOutOfRange = 17,
    // An address of a flow, S or G, that is not of 4 or 16 octets, or S and G of two lengths (document 02, M-106).
    FlowLength = 18,
    // A step outside -65,535 to 65,535 (document 02, M-108).
    StepOutOfRange = 19,
    // Ranges of tags that overlap, run backwards, name a reserved tag, or are too many (document 02, M-109).
    RangesWrong = 20,
    // A list of candidates that is too long, or has an address twice, address zero, or (ours) a family that is neither 4 nor 6 (document 02, M-113).
    CandidatesWrong = 22,
    // A number that names no event (ours: document 02 gives none).
    EventUnknown = 23,
}

// A refusal, and the offset of what is wrong in the octets that were handed in.
#[derive(Clone, Copy, Debug, PartialEq, Eq)]
pub struct RefusalAt {
    pub refusal: Refusal,
    pub offset: usize,
}

impl Refusal {
    // The number that document 01 gives a refusal.
    pub fn number(self) -> u8
        ensures { result ≡ refusal_number self }
    {
        self as u8
    }
}

impl fmt::Display for Refusal {
    fn fmt<W: fmt::Write>(&self, f: &mut fmt::Formatter<W>) -> fmt::Result {
        write!(f, "refused with {}", self.number())
    }
}

impl Error for Refusal {}

// A refusal that speaks of no octet comes with offset 0.
impl From<Refusal> for RefusalAt {
    ghost from_gives = { λ r at. (at.refusal ≡ r) × (at.offset ≡ 0) };

    fn from(refusal: Refusal) -> RefusalAt {
        RefusalAt { refusal, offset: 0 }
    }
}

// The number of a call's answer: 0 where it is not refused.
pub fn number<T>(answer: &Result<T, Refusal>) -> u8
    ensures { result ≡ number_of answer.now }
{
    match answer {
        Ok(_) => 0,
        Err(refusal) => refusal.number(),
    }
}
