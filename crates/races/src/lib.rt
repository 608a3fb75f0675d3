// The race question as one number: whether and where a run file races, with no buffer lent.
#![tactic(auto)]

ghost use Rattle.model.specs.RaceAnswer.{RaceOutcome};

use file::error::FileError;
use ring::race::{packed, race};

// As C is answered, by one integer: the code in the lowest 8 bits, the racing entry in the 24 above, its partner in the 24 above those; both are 0 where nothing races.
pub fn ferrulique_race(file: &[u8]) -> u64
    ensures { RaceOutcome file.now result }
{
    packed(race(file).map_err(FileError::code))
}
