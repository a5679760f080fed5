ghost use Rattle.std.specs.Prelude.{◌≡◌};
ghost use Rattle.fields.specs.Refusals.{number_of};

use std::error::Error;
use std::fmt;

// Why a call is refused. Each refusal has a number, by which a host is told it; 0 is told where a call is accepted.
#[derive(Clone, Copy, Debug, PartialEq, Eq)]
pub enum Refusal {
    // A buffer over its limit, a length over its buffer, a place past the length, a clog under its header.
    Unfit = 1,
    // A tag is there and its fields are cut short.
    Torn = 2,
    UnknownTag = 3,
    LogFull = 4,
    DatabaseFull = 5,
    ClogFull = 6,
    TableFull = 7,
    FramesFull = 8,
    // Install while a transaction is installed.
    Occupied = 9,
    BadPage = 10,
    TouchedFull = 11,
    BadVersion = 12,
    // The slice that the table, or another output, is to go into.
    SliceShort = 13,
    // A store or transaction value out of form.
    OutOfForm = 14,
    // Status pages: an Active slot at or above the mark cannot be written.
    ActiveAbove = 19,
    // Status pages: a 3 in the input.
    SubCommitted = 20,
    // Status pages: an input that is not whole pages.
    PartOfPage = 21,
    // A slot below the base of a second form is not 0, where a clog is to be moved to that form.
    SlotBelowBase = 22,
    // A magic, length, version or base that does not fit the form of a clog, or a base over its limit.
    BadForm = 23,
    // Recording an id below the base.
    IdBelowBase = 24,
}

impl Refusal {
    pub fn number(self) -> u8
        ensures { result ≡ number_of self }
    {
        self as u8
    }
}

impl fmt::Display for Refusal {
    fn fmt<W: fmt::Write>(&self, f: &mut fmt::Formatter<W>) -> fmt::Result {
        write!(f, "{}", self.number())
    }
}

impl Error for Refusal {}
