// Why a call was refused.
ghost use Rattle.std.specs.Prelude.{◌≡◌};
ghost use Rattle.books.specs.Faults.{numbered, placed};

use thiserror::Error;

// A refusal, with the byte that it is about where it has one. Its text is the condition in words.
#[derive(Clone, Copy, PartialEq, Eq, Debug, Error)]
pub enum Fault {
    #[error("the log has fewer than 4 bytes")]
    ShortLog,
    #[error("the number of closures is not 1 to 1024")]
    ClosureCount,
    #[error("the number of records is above 4096")]
    RecordCount,
    #[error("the length is not 4 bytes, 4 for each closure and 8 for each record")]
    LogLength,
    #[error("a head is above the number of records, an end is no closure, or a next record is not an earlier one")]
    WordRange { place: usize },
    #[error("a link leads to a record of another closure")]
    ForeignLink { place: usize },
    #[error("a record is in no leaving or in no arriving chain")]
    LostRecord { place: usize },
    #[error("the buffer is too short, or there are more than 4096 records")]
    NoRoom,
    #[error("a number is no closure of the plan")]
    NoClosure,
    #[error("a mark comes after a visit or a pass")]
    LateMark,
    #[error("no site is marked")]
    NoSite,
    #[error("the closure was visited before in this direction")]
    VisitedBefore,
    #[error("the survey is not ready")]
    NotReady,
    #[error("the rows break a rule")]
    BrokenRows,
}

impl Fault {
    // The number that the refusal has in the table of refusals.
    pub fn number(self) -> u8
        ensures { result ≡ numbered self }
    {
        match self {
            Fault::ShortLog => 1,
            Fault::ClosureCount => 2,
            Fault::RecordCount => 3,
            Fault::LogLength => 4,
            Fault::WordRange { place: _ } => 5,
            Fault::ForeignLink { place: _ } => 6,
            Fault::LostRecord { place: _ } => 7,
            Fault::NoRoom => 8,
            Fault::NoClosure => 9,
            Fault::LateMark => 10,
            Fault::NoSite => 11,
            Fault::VisitedBefore => 12,
            Fault::NotReady => 13,
            Fault::BrokenRows => 14,
        }
    }

    // The byte that the refusal is about, and 0 where it is about none.
    pub fn place(self) -> usize
        ensures { result ≡ placed self }
    {
        match self {
            Fault::WordRange { place } => place,
            Fault::ForeignLink { place } => place,
            Fault::LostRecord { place } => place,
            _ => 0,
        }
    }
}
