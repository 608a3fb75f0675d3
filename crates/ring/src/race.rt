// Only: does it race? The same run, every mark and every byte read written over the last, and two of its numbers.
ghost use Rattle.std.specs.Prelude.{◌≡◌, IfOk};
ghost use Rattle.model.specs.RaceAnswer.{RaceAnswer};
ghost use Rattle.file.specs.Errors.{code_in};
ghost use Rattle.ring.specs.Raced.{IsRace, race_entry, race_partner, entry_in, partner_in, packed_of};

use crate::run::run;
use file::code::check_file;
use file::error::FileError;

// Where the two numbers begin in the one that a C host is handed, since a C function answers one integer: at bit 8, and at bit 32.
const ENTRY: u64 = 256;

const PARTNER: u64 = 4294967296;

// A race: the racing entry's number, counted from 1, and that of the latest access it races with.
#[derive(Clone, Copy, Debug, PartialEq, Eq)]
pub struct DataRace {
    pub entry: u16,
    pub partner: u16,
}

// The two numbers that tell of a race, both 0 where there was none: the report's format and C's.
pub(crate) fn told(race: Option<DataRace>) -> (u16, u16)
    ensures entry { result.0 ≡ race_entry race }
    ensures partner { result.1 ≡ race_partner race }
{
    match race {
        Some(race) => (race.entry, race.partner),
        None => (0, 0),
    }
}

// Whether and where a run file races, or why it is refused.
pub fn race(file: &[u8]) -> Result<Option<DataRace>, FileError>
    ensures answer { RaceAnswer file.now (code_in result) (entry_in result) (partner_in result) }
    ensures raced { IfOk result IsRace }
{
    check_file(file)?;
    let mut marks = [0u8; 1];
    let mut out = [0u8; 1];
    let ran = run(file, 0, &mut marks, &mut out);
    Ok(ran.ring.race)
}

// The answer as one number for C, where a refusal is told by its code: any code, since none was ever refused here.
pub fn packed(answer: Result<Option<DataRace>, u32>) -> u64
    ensures { result ≡ packed_of answer }
{
    match answer {
        Ok(race) => {
            let (entry, partner) = told(race);
            ENTRY * u64::from(entry) + PARTNER * u64::from(partner)
        }
        Err(code) => u64::from(code),
    }
}
