// The refusals of the documents' table, and what the other crates share of their arithmetic.
#![tactic(auto)]

ghost use Rattle.std.specs.Prelude.{◌≡◌, length};
ghost use Rattle.lists.specs.Tabulate.{zeros};
ghost use Rattle.lists.specs.Refusal.{◌or_else◌};
ghost use Rattle.lists.specs.Numbered.{refusal_number, answer_number};

use std::fmt;

// Why a call is refused.
#[derive(Clone, Copy, Debug, PartialEq, Eq)]
pub enum Refusal {
    // a layout number outside its bounds
    Layout,
    // the image's length is wrong
    ImageLength,
    // the failure record is bad
    Record,
    // a tile, group, unit, frame, target, offset or range outside
    Outside,
    // a buffer that is not of its exact length
    BufferLength,
    // the target has failed already
    FailedAlready,
    // no further failure can be borne
    Dud,
    // more than K units are named missing
    TooManyMissing,
    // the catalogue is bad
    BadCatalogue,
    // no room for what is new
    Full,
    // no such record, target or line
    NotThere,
    // a line of a text is wrong
    WrongLine,
    // a malformed line of a trace, or a pool too large for a replay
    BadTrace,
    // the record's count of missing units is not the true one
    WrongCount,
    // the proposed plan is not accepted
    BadPlan,
    // not all that failed is repaired
    NotRepaired,
    // an edition that the reader does not know
    UnknownEdition,
}

impl From<Refusal> for u64 {
    ghost from_gives = { λ refusal n. n ≡ refusal_number refusal };

    fn from(refusal: Refusal) -> u64 {
        match refusal {
            Refusal::Layout => 1,
            Refusal::ImageLength => 2,
            Refusal::Record => 3,
            Refusal::Outside => 4,
            Refusal::BufferLength => 5,
            Refusal::FailedAlready => 6,
            Refusal::Dud => 7,
            Refusal::TooManyMissing => 8,
            Refusal::BadCatalogue => 9,
            Refusal::Full => 10,
            Refusal::NotThere => 11,
            Refusal::WrongLine => 12,
            Refusal::BadTrace => 13,
            Refusal::WrongCount => 14,
            Refusal::BadPlan => 15,
            Refusal::NotRepaired => 16,
            Refusal::UnknownEdition => 17,
        }
    }
}

// By its number, as the documents and C name it.
impl fmt::Display for Refusal {
    fn fmt<W: fmt::Write>(&self, f: &mut fmt::Formatter<W>) -> fmt::Result {
        write!(f, "{}", u64::from(*self))
    }
}

// The number of a call's answer: 0 where it is accepted.
pub fn answer_number<T: Copy>(answer: Result<T, Refusal>) -> u64
    ensures { result ≡ answer_number answer }
{
    match answer {
        Ok(_) => 0,
        Err(refusal) => refusal.into(),
    }
}

// The first of two refusal numbers that is not 0.
pub fn first(a: u64, b: u64) -> u64
    ensures { result ≡ a or_else b }
{
    if a == 0 {
        return b;
    }
    a
}

// The whole of out is zeros.
pub fn clear(out: &mut [u8])
    ensures { out.new ≡ zeros (length out.old) }
{
    out.fill(0);
}
