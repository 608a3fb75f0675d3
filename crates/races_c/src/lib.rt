// The library that a C host calls: whether and where a run file races, with no buffer lent.
#![tactic(auto)]

ghost use Rattle.model.specs.RaceAnswer.{RaceOutcome};

// The code in the lowest 8 bits, the racing entry in the 24 above, its partner in the 24 above those; both are 0 where nothing races.
#[unsafe(no_mangle)]
pub extern "C" fn ferrulique_race(file: &[u8]) -> u64
    ensures { RaceOutcome file.now result }
{
    races::ferrulique_race(file)
}
