// Why an operation refuses: a name for each refusal, and the number that hosts and people see for it.
#![tactic(auto)]

ghost use Rattle.std.specs.Prelude.{◌≡◌};
ghost use Rattle.refusal.specs.declared.Refusal.TheVariants.{Sheet, Log};
ghost use Rattle.refusal.specs.Refusal.{sheet_number, log_number, number as number_of};

// Why a sheet is refused, in the order in which reading looks.
#[derive(Clone, Copy, Debug, PartialEq, Eq)]
pub enum SheetRefusal {
    HeadMalformed,
    OverLimits,
    WrongLength,
    RowMalformed,
    WrongSection,
    WrongKind,
    WrongP,
    WrongQ,
    WrongField,
    SectionTooLong,
}

impl SheetRefusal {
    pub fn number(self) -> u32
        ensures { result ≡ sheet_number self }
    {
        match self {
            SheetRefusal::HeadMalformed => 1,
            SheetRefusal::OverLimits => 2,
            SheetRefusal::WrongLength => 3,
            SheetRefusal::RowMalformed => 4,
            SheetRefusal::WrongSection => 5,
            SheetRefusal::WrongKind => 6,
            SheetRefusal::WrongP => 7,
            SheetRefusal::WrongQ => 8,
            SheetRefusal::WrongField => 9,
            SheetRefusal::SectionTooLong => 10,
        }
    }
}

// Why a log is refused, in the order in which reading looks.
#[derive(Clone, Copy, Debug, PartialEq, Eq)]
pub enum LogRefusal {
    HeadMalformed,
    TooManyLines,
    WrongLength,
    LineMalformed,
    EventUnknown,
    TickBelow,
    CloseBelow,
}

impl LogRefusal {
    pub fn number(self) -> u32
        ensures { result ≡ log_number self }
    {
        match self {
            LogRefusal::HeadMalformed => 21,
            LogRefusal::TooManyLines => 22,
            LogRefusal::WrongLength => 23,
            LogRefusal::LineMalformed => 24,
            LogRefusal::EventUnknown => 25,
            LogRefusal::TickBelow => 26,
            LogRefusal::CloseBelow => 27,
        }
    }
}

// Why an operation over a sheet, a log and a number is refused.
#[derive(Clone, Copy, Debug, PartialEq, Eq)]
pub enum Refusal {
    Sheet(SheetRefusal),
    Log(LogRefusal),
    NoSuchNumber,
    BufferTooShort,
    TooFewPlaces,
    WrongNumberOfPositions,
}

impl Refusal {
    pub fn number(self) -> u32
        ensures { result ≡ number_of self }
    {
        match self {
            Refusal::Sheet(refusal) => refusal.number(),
            Refusal::Log(refusal) => refusal.number(),
            Refusal::NoSuchNumber => 31,
            Refusal::BufferTooShort => 32,
            Refusal::TooFewPlaces => 33,
            Refusal::WrongNumberOfPositions => 34,
        }
    }
}

impl From<SheetRefusal> for Refusal {
    ghost from_gives = { λ refusal r. r ≡ Sheet refusal };

    fn from(refusal: SheetRefusal) -> Refusal {
        Refusal::Sheet(refusal)
    }
}

impl From<LogRefusal> for Refusal {
    ghost from_gives = { λ refusal r. r ≡ Log refusal };

    fn from(refusal: LogRefusal) -> Refusal {
        Refusal::Log(refusal)
    }
}
