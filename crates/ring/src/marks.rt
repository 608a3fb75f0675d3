// What an entry came to, each with its mark: what a performed move did, or why an entry is refused.
ghost use Rattle.std.specs.Prelude.{◌≡◌};
ghost use Rattle.ring.specs.computed.Marks.{performed_mark, byte_read, last_mark, last_byte, refusal_mark};

// What a performed move did; a data load with the byte that it read.
#[derive(Clone, Copy, Debug, PartialEq, Eq)]
pub(crate) enum Performed {
    OwnLoaded,
    ForeignLoaded,
    BatchFailed,
    DataStored,
    DataLoaded(u8),
    IndexStored,
    RaceFound,
}

impl Performed {
    // The move's mark.
    pub(crate) fn mark(self) -> u8
        ensures { result ≡ performed_mark self }
    {
        match self {
            Performed::OwnLoaded => 1,
            Performed::ForeignLoaded => 2,
            Performed::BatchFailed => 3,
            Performed::DataStored => 4,
            Performed::DataLoaded(_) => 5,
            Performed::IndexStored => 6,
            Performed::RaceFound => 7,
        }
    }

    // The byte that goes to out, where the move was a data load.
    pub(crate) fn byte(self) -> Option<u8>
        ensures { result ≡ byte_read self }
    {
        match self {
            Performed::DataLoaded(byte) => Some(byte),
            _ => None,
        }
    }
}

// The mark of the latest move, as the marks have it. It is asked after a move; before the first it is 0, which is no mark.
pub(crate) fn last_mark(last: Option<Performed>) -> u8
    ensures { result ≡ last_mark last }
{
    last.map_or(0, Performed::mark)
}

// The byte that the latest move read for out, where it read one.
pub(crate) fn last_byte(last: Option<Performed>) -> Option<u8>
    ensures { result ≡ last_byte last }
{
    last.and_then(Performed::byte)
}

// Why an entry is refused, in the order in which the reasons are tried.
#[derive(Clone, Copy, Debug, PartialEq, Eq)]
pub(crate) enum Refusal {
    NoSuchCore = 129,
    Halted = 130,
    NoBatchLeft = 131,
    NoAgeHere = 132,
    PastInitial = 133,
    StoreHidden = 134,
}

impl Refusal {
    // The refusal's mark.
    pub(crate) fn mark(self) -> u8
        ensures { result ≡ refusal_mark self }
    {
        self as u8
    }
}
