// Why a file is refused, or a call for the lengths of its buffers.
ghost use Rattle.std.specs.Prelude.{◌≡◌};
ghost use Rattle.file.specs.Errors.{number_of};

// The refusals, each with its number in the table of codes.
#[derive(Clone, Copy, Debug, PartialEq, Eq)]
pub enum FileError {
    TooShort = 1,
    TooLong = 2,
    RingSize = 3,
    Modulus = 4,
    SizeAndModulus = 5,
    OrderBits = 6,
    Truncated = 7,
    OddSchedule = 8,
    MarksTooShort = 9,
    OutTooShort = 10,
    ReportTooShort = 11,
}

impl FileError {
    // The refusal's number.
    pub fn code(self) -> u32
        ensures { result ≡ number_of self }
    {
        self as u32
    }
}
